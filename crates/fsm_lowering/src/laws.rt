// The laws of state machines. The functions do nothing: their clauses are the laws.
ghost use Rattle.fsm_lowering.specs.Laws.{StatesAreNumbered, NumbersFit, WidthsAreLeast, RegisterIsTheSignal, SignalsLeaveItUnsettled, ExpressionsLeaveItUnsettled, OthersLeaveItUnsettled, CallsLeaveItUnsettled, StatesMakeOneChoice, OneStateIsCarriedOut};

/// State k has the number k, and the register's shape is the least that has the number of each.
pub fn states_are_numbered()
    ensures numbers { StatesAreNumbered }
    ensures fit { NumbersFit }
    ensures least { WidthsAreLeast }
{}

/// The register stays without a shape until its machine ends, whatever signals and expressions are made, as long as no
/// expression but those of the machine stands over it, and whatever other signals are settled.
pub fn register_stays_unsettled()
    ensures signals { SignalsLeaveItUnsettled }
    ensures expressions { ExpressionsLeaveItUnsettled }
    ensures others { OthersLeaveItUnsettled }
    ensures calls { CallsLeaveItUnsettled }
{}

/// The states are the cases of one choice over the register, in the order of their entering.
pub fn states_make_one_choice()
    ensures { StatesMakeOneChoice }
{}

/// That choice carries out the statements of the state whose number the register has, and none where no state has it.
pub fn one_state_is_carried_out()
    ensures state { OneStateIsCarriedOut }
    ensures register { RegisterIsTheSignal }
{}
