// What a put checks apart from the search for its name. Of the counts it reads only that of the name's table: in a
// record that close would accept, no count exceeds the number of entries.
ghost use Rattle.std.specs.Prelude.{◌≡◌};
ghost use Rattle.jhash.specs.Outcome.{refusal_of};
ghost use Rattle.writer.specs.Steps.Storing.{SizeWithPre};
ghost use Rattle.index.specs.Refusals.{early_refusal, late_refusal};

use image::zero::has_zero;
use jhash::refusals::Refusal;
use writer::CQDBWriter;
use writer::record::too_large;

// The refusals that come before the search for the name: a record of another buffer, a zero byte, a name that is too
// long to have a hash.
#[tactic(auto, unfolding(crate::specs::Refusals::early_refusal))]
pub(super) fn check_early(w: &CQDBWriter, buf: &[u8], name: &[u8]) -> Result<(), Refusal>
    ensures { refusal_of result ≡ early_refusal w.now buf.now name.now }
{
    if !w.in_buffer(buf) {
        return Err(Refusal::Unfit);
    }
    if has_zero(name) {
        return Err(Refusal::ZeroByte);
    }
    if 4294967294 < name.len() {
        return Err(Refusal::NoRoom);
    }
    Ok(())
}

// The refusals that come after the search, for a name of n bytes with hash h: an image that would be too large, and a
// count of the name's table that is the largest word. The counts are lent and may be anything. The size check bounds
// the number of entries below such a count, so `CQDBWriter::put` refuses the record as unfit, too.
#[tactic(auto, unfolding(crate::specs::Refusals::late_refusal))]
pub(super) fn check_late(
    w: &CQDBWriter,
    counts: &[u32; 256],
    n: usize,
    id: u32,
    h: u32,
) -> Result<(), Refusal>
    requires { SizeWithPre w.now.end n }
    ensures { refusal_of result ≡ late_refusal w.now counts.now n id h }
{
    if too_large(w.length, w.size_with(n, id)) {
        return Err(Refusal::NoRoom);
    }
    let t = (h % 256) as usize;
    if counts[t] > 4294967294 {
        return Err(Refusal::Unfit);
    }
    Ok(())
}
