//! Laws of how a command line is read.

ghost use Rattle.nj_questions.specs.Cited.{SubcommandIsRequired, TakenIsQuestion, FilesAfterDashes, KeysKeepOrder, FolderMayComeFirst};

/// Arguments are a question if and only if `clap` accepts them and no argument before `--` is the
/// old option. They have a subcommand, and `-C DIR` may come before it. Arguments after `--` are
/// not options, whatever they look like. The values of a repeated option keep their order, and so
/// do targets.
pub fn reading_law()
    ensures required { SubcommandIsRequired }
    ensures taken { TakenIsQuestion }
    ensures folder { FolderMayComeFirst }
    ensures ended { FilesAfterDashes }
    ensures order { KeysKeepOrder }
{}
