ghost use Rattle.read_back.specs.Laws.{WhatIsWrittenIsReadAgain};

/// In the modes that quote names, what is written of a term is read as that term and as no other, its variables numbered
/// from 0 by first occurrence: by itself and as an argument, with the operators of the standard's table.
///
/// The term is one of the code's: names are text, a variable's number has 64 bits and an integer 128, a compound has 1 to
/// 1,024 arguments. Its depth is at most 1,000, which is what the reader takes.
pub fn what_is_written_is_read_again()
    ensures { WhatIsWrittenIsReadAgain }
{}
