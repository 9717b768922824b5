// Several walls in a file, for C.
ghost use Rattle.std.specs.Prelude.{◌≡◌};
ghost use Rattle.bundle.specs.FileWalk.{counting};
ghost use Rattle.bundle.specs.Opening.{opening_at};
ghost use Rattle.bundle.specs.Append.{appending, after_append};
ghost use Rattle.reader_c.specs.Bundle.{open_at_answer, append_answer, count_answer};

// The refusal's number, 0 when accepted; the number of entries, and the place of the image's first byte in the
// file and how many bytes it has. Zeros when refused.
#[repr(C)]
#[derive(Clone, Copy)]
pub struct BundleOpenAnswer {
    pub refusal: u32,
    pub num: u32,
    pub start: u64,
    pub size: u64,
}

// The refusal's number, 0 when accepted; the joined length, 0 when refused.
#[repr(C)]
#[derive(Clone, Copy)]
pub struct BundleAppendAnswer {
    pub refusal: u32,
    pub length: u64,
}

// The refusal's number, 0 when accepted; the number of images, 0 when refused.
#[repr(C)]
#[derive(Clone, Copy)]
pub struct BundleCountAnswer {
    pub refusal: u32,
    pub images: u64,
}

// The image at a position, counted from 0; or refusal 10 or 11, then 5, 6, 7 or 8.
#[unsafe(no_mangle)]
pub extern "C" fn cqdb_bundle_open(file: &[u8], position: u64) -> BundleOpenAnswer
    ensures { result ≡ open_at_answer (opening_at file.now position) }
{
    match bundle::open(file, position as usize) {
        Ok(opened) => BundleOpenAnswer {
            refusal: 0,
            num: opened.num,
            start: opened.start as u64,
            size: opened.size as u64,
        },
        Err(refusal) => BundleOpenAnswer {
            refusal: u32::from(refusal),
            num: 0,
            start: 0,
            size: 0,
        },
    }
}

// Writes the image's bytes right after the file's, which are the buffer's first `file_len` bytes, and gives the
// joined length; or refusal 10 or 3, which changes nothing.
#[unsafe(no_mangle)]
pub extern "C" fn cqdb_bundle_append(
    buf: &mut [u8],
    file_len: u64,
    image: &[u8],
) -> BundleAppendAnswer
    ensures answer { result ≡ append_answer (appending buf.old file_len image.now) }
    ensures leaves { buf.new ≡ after_append buf.old file_len image.now }
{
    match bundle::append(&mut *buf, file_len as usize, image) {
        Ok(n) => BundleAppendAnswer {
            refusal: 0,
            length: n as u64,
        },
        Err(refusal) => BundleAppendAnswer {
            refusal: u32::from(refusal),
            length: 0,
        },
    }
}

// How many images the file holds, or refusal 10.
#[unsafe(no_mangle)]
pub extern "C" fn cqdb_bundle_count(file: &[u8]) -> BundleCountAnswer
    ensures { result ≡ count_answer (counting file.now) }
{
    match bundle::count(file) {
        Ok(n) => BundleCountAnswer {
            refusal: 0,
            images: n as u64,
        },
        Err(refusal) => BundleCountAnswer {
            refusal: u32::from(refusal),
            images: 0,
        },
    }
}
