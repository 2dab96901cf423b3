// The tables of measuring, for who lends them: two intervals for each group, for one member out of it, and for that member in it.
ghost use Rattle.std.specs.Prelude.{◌≡◌, replicate};
ghost use Rattle.wire.specs.Capacity.{group_capacity};

use spans::pair::Pair;
use tables::limits::GROUP_CAPACITY;

// The intervals of each group, and with each son those of its later brothers joined.
#[derive(Drop)]
pub struct Measured {
    pub spans: [Pair; GROUP_CAPACITY],
    pub after: [Pair; GROUP_CAPACITY],
}

impl Measured {
    // nothing is measured yet
    pub fn new() -> Measured
        ensures { (result.spans ≡ replicate group_capacity Pair.ZERO) × (result.after ≡ replicate group_capacity Pair.ZERO) }
    {
        Measured {
            spans: [Pair::ZERO; GROUP_CAPACITY],
            after: [Pair::ZERO; GROUP_CAPACITY],
        }
    }
}

#[cfg(test)]
mod tests {
    use super::*;

    fn is_zero(pair: &Pair) -> bool {
        pair.out.least == 0 && pair.out.most == 0 && pair.inn.least == 0 && pair.inn.most == 0
    }

    #[test]
    fn nothing_is_measured(rt: HostRuntime) {
        let measured = Measured::new();
        assert!(rt; measured.spans.iter().all(is_zero));
        assert!(rt; measured.after.iter().all(is_zero));
    }
}
