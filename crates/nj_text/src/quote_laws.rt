//! A law of shell quotes.

ghost use Rattle.nj_text.specs.Cited.{ShellTakesThePath};

/// A POSIX shell reads the quote of a path as the path; of the empty path it makes no word.
pub fn shells_take_the_path()
    ensures { ShellTakesThePath }
{}
