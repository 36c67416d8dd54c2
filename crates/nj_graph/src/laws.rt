//! Laws of the reading of files.

ghost use Rattle.nj_graph.specs.Cited.{IsInReadingOrder, gathered, SameLogChangesNothing, JoinedStaysJoined, rule_place_given, pool_detail_given, opening_given, ReadIsFaultless, OpenFilesAreBounded, OpeningsAreBounded, OthersAreNotRead, MainRulesRise, LaterBindingsCount, LaterBindingsChangeNoEdge, StatementsAreFoundInTurn, EntriesAreFoundInTurn, FirstPositionIsFirst, SignIsBeforeTheFirst, WordsMeanPaths, EmptyWordMeansNothing};

/// The statements that are read of a run's files up to the first fault: no statement has a fault by
/// the statements before it, so that the rules of the main scope have names of their own; at most
/// 32 files are open at any statement, and the limit on opened files is kept; and files that the
/// reading does not reach make no difference.
pub fn statements_up_to_the_first_fault()
    ensures faultless { ReadIsFaultless }
    ensures open_files { OpenFilesAreBounded }
    ensures openings { OpeningsAreBounded }
    ensures others { OthersAreNotRead }
    ensures rules { MainRulesRise }
{}

/// The places of rules, the places and depths of pools, and the files that statements open, in
/// reading order: the k-th is that of the k-th statement of its kind, by the statements before it,
/// and there are no others. Before them come `phony`, which has no place, and the main file.
pub fn origins_by_reading_order()
    ensures rules { IsInReadingOrder rule_place_given (gathered rule_place_given) }
    ensures pools { IsInReadingOrder pool_detail_given (gathered pool_detail_given) }
    ensures openings { IsInReadingOrder opening_given (gathered opening_given) }
{}

/// A value that a file binds after the statement of an edge affects the command of the edge, but
/// none of its paths ("Variable expansion" in the Ninja manual): paths are expanded where they are,
/// and so are the pool and the dyndep file, whose faults are found there.
pub fn bindings_after_an_edge()
    ensures count { LaterBindingsCount }
    ensures edges { LaterBindingsChangeNoEdge }
{}

/// A joined file stays joined: after a whole joining no edge is pending on a dyndep file, so that
/// joining again neither changes a statement nor reaches a file.
pub fn joined_dyndeps_stay_joined()
    ensures { JoinedStaysJoined }
{}

/// The statements that are parsed of a text: the statements that the parser finds in its lines, one
/// after the other, up to the end of the lines or up to the first fault; in a dyndep file the
/// entries after the version, in the same way.
pub fn items_are_found_in_turn()
    ensures statements { StatementsAreFoundInTurn }
    ensures entries { EntriesAreFoundInTurn }
{}

/// Where a command names its response file ("Rule variables" in the Ninja manual): the first
/// position of a name is the least position at which the command has it, and the sign is the `@`
/// directly before it. There is no sign if the command does not have the name, or if its first
/// occurrence has no `@` directly before it.
pub fn sign_before_the_first_name()
    ensures first { FirstPositionIsFirst }
    ensures sign { SignIsBeforeTheFirst }
{}

/// The meaning of a target's argument ("Running Ninja" in the Ninja manual), by its clean path:
/// `FILE` is the file itself, if an edge names it; `FILE^` is the first output of the
/// lowest-numbered edge that has FILE as an input. Any other argument is refused, as an empty
/// argument is.
pub fn words_mean_targets()
    ensures words { WordsMeanPaths }
    ensures empty { EmptyWordMeansNothing }
{}

/// Joining the same deps log again does not change the statements to which it was joined.
pub fn same_log_changes_nothing()
    ensures { SameLogChangesNothing }
{}
