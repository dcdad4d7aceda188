// The flags of the places of a column.
use far_columns::Alive;
use far_types::Refusal;
use std::alloc::Global;

// Adds a flag if there are fewer than `count`, and removes the last if there are more.
fn keep_up(alive: &mut Alive, count: usize) -> Result<(), Refusal> {
    if alive.len() < count {
        alive.push()?;
    } else if alive.len() > count {
        alive.unpush();
    }
    Ok(())
}

/// Returns this many flags, of which the first is cleared. Refused only with `NoMemory` (1).
pub fn flags(alloc: Global, count: usize) -> Result<Alive, Refusal> {
    let mut alive = Alive::new(alloc);
    for _ in 0..count {
        keep_up(&mut alive, count)?;
    }
    if alive.len() > 0 {
        alive.clear(0);
    }
    Ok(alive)
}
