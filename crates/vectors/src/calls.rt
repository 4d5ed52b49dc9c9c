// A script's call.
use desk::Desk;
use rows::Call;
use trace::gatherer::trace_gather;
use trace::reader::trace_read;
use trace_arrays::array;
use trace_copier::copies::trace_copy;
use trace_writer::writer::trace_write;

// A writer's and a copier's find their number on the desk; no other looks there.
pub fn make(call: Call, desk: &mut Desk, data: &[u8], buf: &mut [u8]) {
    match call {
        Call::Write(call) => {
            desk[24] = u64::from(call);
            trace_write(desk, data, buf);
        }
        Call::Copy(call) => {
            desk[24] = u64::from(call);
            trace_copy(desk, data, buf);
        }
        Call::Array(call) => array(call, desk, data, buf),
        Call::Read => trace_read(desk, data),
        Call::Gather => trace_gather(desk, buf, data),
    }
}
