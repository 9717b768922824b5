// One line of the page.
ghost use Rattle.std.specs.Prelude.{◌≡◌, cond, map, ◌+◌, ◌%◌, ◌≤◌, length, replicate, eqb, ltb};
ghost use Rattle.std.proofs.Math.Option.{some};
ghost use Rattle.std.proofs.lemmas.List.Edits.{sets};
ghost use Rattle.reader.specs.Naming.{name_given};
ghost use Rattle.page.specs.Page.{id_field, shown, name_field, line};

use reader::name_given;

// The lowest digit of a number.
fn digit(n: u32) -> u8
    ensures { result ≡ 48 + n % 10 }
{
    48 + (n % 10) as u8
}

// The same, and a space where no digit is left.
fn digit_or_space(n: u32) -> u8
    ensures { result ≡ cond (eqb n 0) 32 (48 + n % 10) }
{
    if n == 0 { b' ' } else { digit(n) }
}

// An id, right-aligned in 10 bytes from `at` on.
fn print_number(out: &mut [u8], at: usize, id: u32)
    requires { at + 10 ≤ length out.old }
    ensures { out.new ≡ sets out.old at (id_field id) }
{
    out[at + 9] = digit(id);
    let mut n = id / 10;
    for i in 0..9 {
        out[at + (8 - i)] = digit_or_space(n);
        n /= 10;
    }
}

// A byte as it is printed.
fn show(b: u8) -> u8
    ensures { result ≡ shown b }
{
    match b {
        32..=126 => b,
        _ => b'.',
    }
}

// Bytes as they are printed, from `at` on.
fn show_all(out: &mut [u8], at: usize, bytes: &[u8])
    requires { at + length bytes.now ≤ length out.old }
    ensures { out.new ≡ sets out.old at (map shown bytes.now) }
{
    for (j, b) in bytes.iter().enumerate() {
        out[at + j] = show(*b);
    }
}

// 32 times the byte b, from `at` on.
fn repeat(out: &mut [u8], at: usize, b: u8)
    requires { at + 32 ≤ length out.old }
    ensures { out.new ≡ sets out.old at (replicate 32 b) }
{
    out[at..at + 32].fill(b);
}

// The sign behind a name: a plus where it was longer.
fn mark(len: usize) -> u8
    ensures { result ≡ cond (ltb 32 len) 43 32 }
{
    if 32 < len { b'+' } else { b' ' }
}

// A name in 32 bytes from `at` on, and the sign behind it. Spaces first: the name then covers those in front.
fn print_name(out: &mut [u8], at: usize, name: &[u8])
    requires { at + 33 ≤ length out.old }
    ensures { out.new ≡ sets out.old at (name_field (some name.now)) }
{
    repeat(&mut *out, at, b' ');
    let n = name.len().min(32);
    show_all(&mut *out, at, &name[..n]);
    out[at + 32] = mark(name.len());
}

// The name of an id, or 32 hyphens, from `at` on, and the sign behind it.
fn print_field(out: &mut [u8], at: usize, image: &[u8], id: u32)
    requires { at + 33 ≤ length out.old }
    ensures { out.new ≡ sets out.old at (name_field (name_given image.now id)) }
{
    match name_given(image, id) {
        Some(name) => print_name(&mut *out, at, name),
        None => {
            repeat(&mut *out, at, b'-');
            out[at + 32] = b' ';
        }
    }
}

// The line of an id, 45 bytes from `at` on.
pub(super) fn print_line(out: &mut [u8], at: usize, image: &[u8], id: u32)
    requires { at + 45 ≤ length out.old }
    ensures { out.new ≡ sets out.old at (line (name_given image.now) id) }
{
    print_number(&mut *out, at, id);
    out[at + 10] = b' ';
    print_field(&mut *out, at + 11, image, id);
    out[at + 44] = b'\n';
}
