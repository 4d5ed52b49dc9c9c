// The calls by name. A writer's and a copier's have numbers, by which a desk tells them (compare/PROTOCOL.md).
ghost use Rattle.std.specs.Prelude.{◌≡◌};
ghost use Rattle.desk.specs.Calls.{writer_number, copier_number, IsWriterCall, IsCopierCall};

// A writer's calls but for arrays.
#[derive(Clone, Copy)]
pub enum WriterCall {
    Unsigned = 1,
    Signed = 2,
    Boolean = 3,
    Fixlen = 4,
    Fp32 = 5,
    Fp64 = 6,
    Str = 7,
    Blob = 8,
    Begin = 13,
    End = 14,
    EndKeep = 15,
    Flush = 16,
    BufferSet = 17,
    Open = 20,
}

// A writer's arrays, floats by their bits.
#[derive(Clone, Copy)]
pub enum ArrayCall {
    Unsigneds,
    Signeds,
    Fp32Bits,
    Fp64Bits,
}

#[derive(Clone, Copy)]
pub enum CopierCall {
    Open = 24,
    Feed = 25,
    Flush = 26,
    BufferSet = 27,
}

// A number of no such call.
#[derive(Clone, Copy)]
pub struct UnknownCall;

impl From<WriterCall> for u64 {
    ghost from_gives = { λ call n. n ≡ writer_number call };

    fn from(call: WriterCall) -> u64 {
        call as u64
    }
}

impl From<CopierCall> for u64 {
    ghost from_gives = { λ call n. n ≡ copier_number call };

    fn from(call: CopierCall) -> u64 {
        call as u64
    }
}

impl TryFrom<u64> for WriterCall {
    type Error = UnknownCall;

    ghost try_from_gives = { IsWriterCall };

    fn try_from(n: u64) -> Result<WriterCall, UnknownCall> {
        Ok(match n {
            1 => WriterCall::Unsigned,
            2 => WriterCall::Signed,
            3 => WriterCall::Boolean,
            4 => WriterCall::Fixlen,
            5 => WriterCall::Fp32,
            6 => WriterCall::Fp64,
            7 => WriterCall::Str,
            8 => WriterCall::Blob,
            13 => WriterCall::Begin,
            14 => WriterCall::End,
            15 => WriterCall::EndKeep,
            16 => WriterCall::Flush,
            17 => WriterCall::BufferSet,
            20 => WriterCall::Open,
            _ => return Err(UnknownCall),
        })
    }
}

impl TryFrom<u64> for CopierCall {
    type Error = UnknownCall;

    ghost try_from_gives = { IsCopierCall };

    fn try_from(n: u64) -> Result<CopierCall, UnknownCall> {
        Ok(match n {
            24 => CopierCall::Open,
            25 => CopierCall::Feed,
            26 => CopierCall::Flush,
            27 => CopierCall::BufferSet,
            _ => return Err(UnknownCall),
        })
    }
}
