//! What is written beside the answer of a job over many files.

ghost use Rattle.std.specs.Prelude.{ℕ, List, Option};
ghost use Rattle.std.specs.Io.KnownBytes.{Appends, Keeps};

/// Writes beside the answer of a job over many files, such as to standard error. What can't be written is left out.
pub trait Aside {
    /// What was told, if it is known: also what couldn't be written.
    ghost told: { Self → Option (List ℕ) };

    /// Shows how many files are done, if that is to be seen.
    fn show(&mut self)
        ensures { Keeps (told self.old) (told self.new) };

    /// Counts a file as done.
    fn count(&mut self)
        ensures { Keeps (told self.old) (told self.new) };

    /// Clears what [`Aside::show`] wrote, so that other lines don't mix with it.
    fn clear(&mut self)
        ensures { Keeps (told self.old) (told self.new) };

    /// Writes the reasons of a file, in one call, so that those of parallel runs don't mix.
    fn tell(&mut self, reasons: &[u8])
        ensures { Appends (told self.old) (told self.new) reasons.now };
}
