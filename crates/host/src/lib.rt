// The two functions that a C host calls: the check of a frame and the comparison of two quote frames.
#![tactic(auto)]

ghost use Rattle.std.specs.Prelude.{◌≡◌};
ghost use Rattle.refusals.specs.Refusals.{number_of};
ghost use Rattle.host.specs.Host.{check_of, column_count, compare_of};

use frame_kinds::MAX_COLUMNS;
use frames::{known_length, read_at};
use host_standing::compare_quotes;
use refusals::Refusal;

// Whether a whole frame stands at the start of the bytes.
#[tactic(auto, unfolding(crate::specs::Host::check_of))]
fn check_frame(frame: &[u8]) -> Result<(), Refusal>
    ensures { number_of result ≡ check_of frame.now }
{
    let Some(&kind) = frame.first() else {
        return Err(Refusal::CutFrame);
    };
    let body = known_length(kind).ok_or(Refusal::UnknownKind)?;
    if frame.len() - 1 < usize::from(body) {
        return Err(Refusal::CutFrame);
    }
    Ok(())
}

// 0 for a whole frame at the start of the bytes, else 1 or 2.
#[unsafe(no_mangle)]
pub extern "C" fn bqb_check_frame(frame: &[u8]) -> u32
    ensures { result ≡ check_of frame.now }
{
    match check_frame(frame) {
        Ok(()) => 0,
        Err(refusal) => refusal.number(),
    }
}

// How many columns a frame of this kind has: a quote as many as its kind says, any other none.
#[tactic(auto, using(crate::proofs::Answers::low_count, crate::proofs::Answers::other_count))]
fn column_count(kind: u8) -> usize
    ensures { result ≡ column_count kind }
{
    if kind <= MAX_COLUMNS {
        usize::from(kind)
    } else {
        0
    }
}

// The number of how the first quote stands to the second (100 first better, 101 second better, 102 equal, 103 neither), else the
// refusal: 2, then those of the comparison.
#[tactic(auto, using(crate::proofs::Answers::first_cut, crate::proofs::Answers::second_cut, crate::proofs::Answers::uncut_some, crate::proofs::Answers::count_fits, crate::proofs::Answers::columns_read, crate::proofs::Answers::uncut))]
#[unsafe(no_mangle)]
pub extern "C" fn bqb_compare_quotes(first: &[u8], second: &[u8], directions: u8) -> u32
    ensures { result ≡ compare_of first.now second.now directions }
{
    if bqb_check_frame(first) == 2 || bqb_check_frame(second) == 2 {
        return 2;
    }
    let n = column_count(first[0]);
    let m = column_count(second[0]);
    let a = read_at(first, 0).columns;
    let b = read_at(second, 0).columns;
    match compare_quotes(u32::from(directions), &a[..n], &b[..m]) {
        Ok(standing) => standing.number(),
        Err(refusal) => refusal.number(),
    }
}
