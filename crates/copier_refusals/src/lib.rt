// What a copier's feed refuses, and in which order, by the copier's parts: its reader, its writer, the event still owed and the place
// reached in it, over a buffer of some size.
#![tactic(auto)]

ghost use Rattle.std.specs.Prelude.{◌≡◌, ◌+◌, ◌<◌};
ghost use Rattle.copying.specs.Refusals.{is_broke};
ghost use Rattle.istream.specs.Stream.{state_of};
ghost use Rattle.places.specs.Places.{sound_for};
ghost use Rattle.checks.specs.Check.{check_of};
ghost use Rattle.copier_refusals.specs.Checked.{fits_writer, judged_by};

use istream::IStream;
use ostream::OStream;
use owed::Owed;
use phase::Phase;
use types::{Error, LAZY_SEQ_DEPTH, MAX_DEPTH};

fn is_broken(reader: IStream) -> bool
    ensures { result ≡ is_broke (state_of reader) }
{
    matches!(reader.phase, Phase::Broken)
}

// By hand and not by `sum()`: that is a loop over the places, and what was measured is the eight looked at together.
fn sum(a: u32, b: u32, c: u32, d: u32) -> u64
    ensures { (result ≡ a + b + c + d) × (result < 17179869184) }
{
    a as u64 + b as u64 + c as u64 + d as u64
}

// Whether a writer that holds no id is sound for a buffer of this size. The eight places, the writer's own fixed memory, are looked at by
// their sum: one by one, as `places::unused_zero` does, they took a quarter of `feed` (docs/PERFORMANCE.md).
fn is_rested(offset: usize, depth: u16, places: [u32; LAZY_SEQ_DEPTH], size: usize) -> bool
    ensures { result ≡ sound_for offset depth 0 places size }
{
    if size < offset {
        return false;
    }
    if MAX_DEPTH < depth as u32 {
        return false;
    }
    let first = sum(places[0], places[1], places[2], places[3]);
    let last = sum(places[4], places[5], places[6], places[7]);
    first + last == 0
}

// Whether the writer is sound for a buffer of this size, and the copier's own conditions hold.
#[tactic(auto, using(crate::proofs::Tests::id_held, crate::proofs::Tests::unrested, crate::proofs::Tests::rested_broke, crate::proofs::Tests::rested_whole))]
fn sound_writer(reader: IStream, writer: OStream, owed: Owed, place: u8, size: usize) -> bool
    ensures { result ≡ fits_writer reader writer owed place size }
{
    if writer.npending != 0 {
        return false;
    }
    if !is_rested(writer.offset, writer.depth, writer.pending, size) {
        return false;
    }
    if is_broken(reader) {
        return owed.is_nothing();
    }
    owed.sound(place, reader.carried.depth, writer.depth)
}

// The refusals of a feed: the reader, the writer with the copier's own conditions, a broken message.
#[tactic(auto, unfolding(copying::specs::Refusals::refusing))]
pub fn check_copier(
    reader: IStream,
    writer: OStream,
    owed: Owed,
    place: u8,
    size: usize,
) -> Result<(), Error>
    ensures { result ≡ check_of (judged_by reader writer owed place size) }
{
    if !reader.sound() {
        return Err(Error::UnsoundReader);
    }
    if !sound_writer(reader, writer, owed, place, size) {
        return Err(Error::UnsoundWriter);
    }
    if is_broken(reader) {
        return Err(Error::InvalidMsg);
    }
    Ok(())
}
