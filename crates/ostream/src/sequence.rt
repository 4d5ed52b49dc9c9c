// The calls that open and close a sequence. An opened one is held back until it has content.
ghost use Rattle.std.specs.Prelude.{◌≡◌, ◌<◌, true, length};
ghost use Rattle.layout.specs.Limits.{base};
ghost use Rattle.ostream.specs.Stream.{lazy_depth, sound_stream, holding, dropped};
ghost use Rattle.ostream.specs.Emission.{result_of, written};
ghost use Rattle.ostream.specs.Calls.{begin_call, end_call, end_keep_call};

use crate::{Answer, OStream, Written};
use at_ease::can_hold;
use checks::{check_begin, check_end};
use fields::{put_close, put_marker};
use held::tagged;
use places::{add_id, drop_id};
use types::{LAZY_SEQ_DEPTH, T_SEQUENCE_START};
use write_at_once::close_at_once;

impl OStream {
    // The state with one more sequence held back. (Its callers have tested both, by `can_hold` or by the refusals of an open.)
    fn hold(mut self, id: u32) -> OStream
        requires { (self.npending < lazy_depth) × (self.depth < base.depth) }
        ensures { result ≡ holding self id }
    {
        let places = self.pending;
        let more = add_id(places, self.npending, id);
        self.pending = more;
        self.npending += 1;
        self.depth += 1;
        self
    }

    // The state with the last one held back dropped, and its place zero.
    fn unhold(mut self) -> OStream
        ensures { result ≡ dropped self }
    {
        let places = self.pending;
        let fewer = drop_id(places, self.npending);
        self.pending = fewer;
        self.npending = self.npending.saturating_sub(1);
        self.depth = self.depth.saturating_sub(1);
        self
    }

    // A sequence is opened, and its header held back until it has content.
    pub fn write_sequence_begin_lazy(mut self, buf: &mut [u8], id: u32, place: usize) -> Written
        ensures { result_of result buf.new ≡ written (begin_call self (length buf.old) id) self buf.old place }
    {
        if place == 0 && can_hold(self.offset, self.nest(), buf.len(), id) {
            return Written {
                answer: Ok(Answer::Done),
                stream: self.hold(id),
            };
        }
        self.begin_slowly(buf, id, place)
    }

    // The slow form of `write_sequence_begin_lazy`, from any state and place.
    fn begin_slowly(self, buf: &mut [u8], id: u32, place: usize) -> Written
        ensures { result_of result buf.new ≡ written (begin_call self (length buf.old) id) self buf.old place }
    {
        let size = buf.len();
        if let Err(e) = check_begin(self.sound(size), self.depth, id) {
            return self.refuse(e);
        }
        if self.npending < LAZY_SEQ_DEPTH as u16 {
            return self.alter(place, self.hold(id));
        }
        let header = tagged(id, T_SEQUENCE_START);
        let outcome = put_marker(self.start(place), buf, self.held(), header);
        self.settle(size, outcome, self.depth + 1)
    }

    // The last opened sequence is closed; one that is held back vanishes. Fast and slow form stand as in `write_varint_field`.
    pub fn write_sequence_end(mut self, buf: &mut [u8], place: usize) -> Written
        ensures { result_of result buf.new ≡ written (end_call self (length buf.old)) self buf.old place }
    {
        if place == 0 {
            if let Some(end) = close_at_once(buf, self.offset, self.nest()) {
                self.depth -= 1;
                return self.done(end);
            }
        }
        self.rebuilt().end_slowly(buf, place).rebuilt()
    }

    // The slow form of `write_sequence_end`, from any state and place.
    #[inline(never)]
    fn end_slowly(self, buf: &mut [u8], place: usize) -> Written
        ensures { result_of result buf.new ≡ written (end_call self (length buf.old)) self buf.old place }
    {
        if let Err(e) = check_end(self.sound(buf.len()), self.depth) {
            return self.refuse(e);
        }
        if self.npending == 0 {
            return self.close(buf, place);
        }
        self.alter(place, self.unhold())
    }

    // The held headers and a close. (Both callers have made the tests of a close.)
    fn close(self, buf: &mut [u8], place: usize) -> Written
        requires { (sound_stream self (length buf.old) ≡ true) × (0 < self.depth) }
        ensures { result_of result buf.new ≡ written (end_keep_call self (length buf.old)) self buf.old place }
    {
        let size = buf.len();
        let outcome = put_close(self.start(place), buf, self.held());
        self.settle(size, outcome, self.depth - 1)
    }

    // The last opened sequence is closed, and written even where it is empty.
    pub fn write_sequence_end_keep(mut self, buf: &mut [u8], place: usize) -> Written
        ensures { result_of result buf.new ≡ written (end_keep_call self (length buf.old)) self buf.old place }
    {
        if let Err(e) = check_end(self.sound(buf.len()), self.depth) {
            return self.refuse(e);
        }
        self.close(buf, place)
    }
}
