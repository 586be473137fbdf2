// The law of texts. The function does nothing: its clause is the law.
ghost use Rattle.rtlil_text.specs.Reads.{TextsStandForOneModule};

/// A text stands for one module at most.
pub fn texts_stand_for_one_module()
    ensures { TextsStandForOneModule }
{}
