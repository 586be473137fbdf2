// The laws of the inserters. The functions do nothing: their clauses are the laws.
ghost use Rattle.domain_transforms.specs.Laws.{EnabledFragmentsKeep, EnabledReadsKeep, EnabledRegistersKeep, EnabledRowsKeep, EnabledWritesKeep, OtherProcessesStay, OtherRegistersStay, OtherSignalsStay, RenamedExpressionsStay, RenamedStatementsDrive, RenamedStatementsStay, ResetFragmentsTake, ResetRegistersTake};

/// After an enable inserter a register of a controlled domain takes what it took before where the control is not 0, and else
/// keeps; the domain's own reset acts after it. A register of another domain takes what it took.
pub fn enables_keep_registers()
    ensures controlled { EnabledRegistersKeep }
    ensures others { OtherRegistersStay }
{}

/// After it a memory port of a controlled domain acts as before where the control is not 0, and else not at all.
pub fn enables_keep_ports()
    ensures writes { EnabledWritesKeep }
    ensures rows { EnabledRowsKeep }
    ensures reads { EnabledReadsKeep }
{}

/// After a reset inserter a register of a controlled domain takes its init where the control is not 0, but where it is
/// reset-less, else what it took before; the domain's own reset acts after it. The process of another domain stays as it is.
pub fn resets_give_inits()
    ensures controlled { ResetRegistersTake }
    ensures others { OtherProcessesStay }
{}

/// So it is for each signal that statements of the fragment, or of one below it, drive, where the pool is read in which both
/// fragments stand.
pub fn enables_keep_fragments()
    ensures controlled { EnabledFragmentsKeep }
    ensures others { OtherSignalsStay }
{}

/// After a reset inserter it is so for each register that statements of the fragment, or of one below it, drive.
pub fn resets_give_fragments_inits()
    ensures { ResetFragmentsTake }
{}

/// After a renaming each expression of the fragment means what it meant, in surroundings where each domain has under its new
/// name the reset that it had, and so statements leave what they left, in the signals that they drove.
pub fn new_names_keep_meaning()
    ensures expressions { RenamedExpressionsStay }
    ensures statements { RenamedStatementsStay }
    ensures drives { RenamedStatementsDrive }
{}
