ghost use Rattle.prolog_grammar.specs.Laws.{EveryReadingIsFound, FoundIsReading, FaultsAreLeast};

/// Each reading that the grammar allows is what the machine reads.
pub fn every_reading_is_found()
    ensures { EveryReadingIsFound }
{}

/// What the machine reads is a reading that the grammar allows, of just these tokens.
pub fn what_is_found_is_a_reading()
    ensures { FoundIsReading }
{}

/// The machine refuses a token exactly where no continuation allows it.
pub fn faults_are_least()
    ensures { FaultsAreLeast }
{}
