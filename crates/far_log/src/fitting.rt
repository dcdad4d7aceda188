// Whether several lists fit when they are placed in order.
ghost use Rattle.std.specs.Prelude.{◌≡◌, ◌==◌};
ghost use Rattle.std.specs.List.{list_all};
ghost use Rattle.far_log.specs.Fitting.{after_fill};

/// Assigns the space of a segment to the waiting lists, in their order. Sets the length of each list that fits to 0.
pub fn fill(space: usize, waiting: &mut [usize])
    ensures { waiting.new ≡ after_fill space waiting.old }
{
    let mut free = space;
    for len in waiting.iter_mut() {
        if *len <= free {
            free -= *len;
            *len = 0;
        }
    }
}

/// Returns whether every list has been placed: all lengths are 0.
pub fn none_waits(waiting: &[usize]) -> bool
    ensures { result ≡ list_all (λ len. len == 0) waiting.now }
{
    waiting.iter().all(|len| *len == 0)
}
