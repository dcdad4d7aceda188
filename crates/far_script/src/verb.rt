// The first words of commands.
ghost use Rattle.std.specs.Prelude.{◌≡◌};
ghost use Rattle.far_script.specs.Verbs.{movement_named, verb_of};

/// The first word of a command about objects or jobs. Each variant is named for its word.
#[derive(Clone, Copy, Debug, PartialEq, Eq)]
pub enum Movement {
    Lend,
    Pin,
    Unpin,
    Evac,
    Fetch,
    Carry,
    Commit,
    Install,
    Compact,
    Prefetch,
    Offload,
    Merge,
}

/// The first word of a command. Each variant but `Move` is named for its word.
#[derive(Clone, Copy, Debug, PartialEq, Eq)]
pub enum Verb {
    Insert,
    Set,
    Remove,
    Watch,
    Unwatch,
    Scan,
    Ask,
    Load,
    Dump,
    Renew,
    Recount,
    Move(Movement),
}

fn read_movement(word: &str) -> Option<Movement>
    ensures { result ≡ movement_named word.now }
{
    match word {
        "lend" => Some(Movement::Lend),
        "pin" => Some(Movement::Pin),
        "unpin" => Some(Movement::Unpin),
        "evac" => Some(Movement::Evac),
        "fetch" => Some(Movement::Fetch),
        "carry" => Some(Movement::Carry),
        "commit" => Some(Movement::Commit),
        "install" => Some(Movement::Install),
        "compact" => Some(Movement::Compact),
        "prefetch" => Some(Movement::Prefetch),
        "offload" => Some(Movement::Offload),
        "merge" => Some(Movement::Merge),
        _ => None,
    }
}

/// Reads the first word of a command; `None` if it is no verb.
pub fn read_verb(word: &str) -> Option<Verb>
    ensures { result ≡ verb_of word.now }
{
    match word {
        "insert" => Some(Verb::Insert),
        "set" => Some(Verb::Set),
        "remove" => Some(Verb::Remove),
        "watch" => Some(Verb::Watch),
        "unwatch" => Some(Verb::Unwatch),
        "scan" => Some(Verb::Scan),
        "ask" => Some(Verb::Ask),
        "load" => Some(Verb::Load),
        "dump" => Some(Verb::Dump),
        "renew" => Some(Verb::Renew),
        "recount" => Some(Verb::Recount),
        _ => Some(Verb::Move(read_movement(word)?)),
    }
}
