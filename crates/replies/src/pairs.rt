// The pair that a call returns, in one number.
ghost use Rattle.std.specs.Prelude.{◌≡◌};
ghost use Rattle.replies.specs.Reply.{packed};
ghost use Rattle.replies.specs.Returned.{returned};

use wire::refusals::Fault;

// The first of the pair counts so much.
pub const PAIR: u64 = 4294967296;

// two numbers in one
pub fn pair(first: u32, second: u32) -> u64
    ensures { result ≡ packed first second }
{
    first as u64 * PAIR + second as u64
}

// 0 with the bytes written, or a refusal's number with the number of its record or row.
pub fn pack(answer: Result<u32, Fault>) -> u64
    ensures { result ≡ returned answer }
{
    match answer {
        Ok(bytes) => pair(0, bytes),
        Err(fault) => pair(fault.refusal.number(), fault.place),
    }
}
