// Conclusions about how a script ends.
ghost use Rattle.std.specs.Prelude.{◌≡◌, ◌≢◌, ◌<◌, ℕ, Bool, false, List, [], ◌++◌, length, IfSome, Option};
ghost use Rattle.far_script.specs.declared.fault.ShellFault.{ShellFault};
ghost use Rattle.far_script.specs.declared.fault.ShellFault.TheVariants as fault;
ghost use Rattle.far_shell.specs.Breaks.{Breaks, IsUnfinished};

use far_script::Source;
use far_store::FarTickets;

/// Shows that a script with fewer than 1,048,576 bytes in memory comes whole: reading from memory never fails, and the
/// script may have more reads than it has bytes. So if it ends with `Input`, a line or a load is not valid UTF-8, or the
/// script ends inside a load.
///
/// The premise is what `run_script` says of such a script at a fault. The conclusion is the same, except that bytes are
/// missing only because the script ended.
pub fn a_short_script_at_hand_comes_whole<S: FarTickets>()
    ensures { (may_fail : Bool) → (script : List ℕ) → (old : Option (List ℕ))
        → (new : Option (List ℕ)) → (why : ShellFault) → length script < 1048576
        → Breaks S.FarTickets (IsUnfinished ⊥) (λ rest. rest ≡ [])
        (λ _ bytes rest. script ≡ bytes ++ rest) may_fail old new why
        → Breaks S.FarTickets (λ _. ⊥) (λ rest. rest ≡ []) (λ _ bytes rest. script ≡ bytes ++ rest)
        may_fail old new why }
{}

/// Shows that a script does not end with `Output` if writers of the type of its writer never fail, as `io::Sink`. The
/// premise is what `run_script` says at a fault if `may_fail` is false for the writer.
pub fn a_sure_writer_is_never_at_fault<S: FarTickets, R: Source>()
    ensures { (reader : R) → (old : Option (List ℕ)) → (new : Option (List ℕ)) → (why : ShellFault)
        → Breaks S.FarTickets (IsUnfinished R.may_fail) (λ rest. rest ≡ [])
        (λ _ bytes rest. IfSome (R.remaining reader) (λ script. script ≡ bytes ++ rest)) false
        old new why
        → why ≢ fault.Output }
{}
