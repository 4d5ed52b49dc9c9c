// What a C host links: the four calls of `host`, with their contracts, under the names that `include/sofab.h` declares for C. A crate is a
// library or an archive for C, so this one only passes on.
#![tactic(auto)]

ghost use Rattle.std.specs.Prelude.{◌≡◌, length};
ghost use Rattle.layout.specs.Limits.{base};
ghost use Rattle.layout.specs.Message.{verdict_of};
ghost use Rattle.layout.specs.Copy.{plain_copy};
ghost use Rattle.exports.specs.Exports.{number, result_of, copied, measured, drained};

#[unsafe(no_mangle)]
pub extern "C" fn sofab_verdict(ticket: &[u8]) -> i64
    ensures { result ≡ number (verdict_of base ticket.now) }
{
    host::sofab_verdict(ticket)
}

#[unsafe(no_mangle)]
pub extern "C" fn sofab_copy(ticket: &[u8], out: &mut [u8]) -> i64
    ensures { result_of result out.new ≡ copied (verdict_of base ticket.now) (plain_copy base ticket.now) out.old }
{
    host::sofab_copy(ticket, out)
}

#[unsafe(no_mangle)]
pub extern "C" fn sofab_length(ticket: &[u8]) -> i64
    ensures { result ≡ measured (verdict_of base ticket.now) (length (plain_copy base ticket.now)) }
{
    host::sofab_length(ticket)
}

#[unsafe(no_mangle)]
pub extern "C" fn sofab_drains(ticket: &[u8], buffer: usize) -> i64
    ensures { result ≡ drained buffer (verdict_of base ticket.now) (length (plain_copy base ticket.now)) }
{
    host::sofab_drains(ticket, buffer)
}
