// Laws that hold of every script.
ghost use Rattle.request_text.specs.Laws.{LinesKeepTheirPlaces, ScriptsAreParted};
ghost use Rattle.request_text.specs.Written.{RequestsAreReadAgain};

use read_back::what_is_written_is_read_again;

/// The place where a line begins is that of the line among all lines, however the lines end.
pub fn lines_keep_their_places()
    ensures { LinesKeepTheirPlaces }
{}

/// A script's source text is its front up to the first line `---`, byte by byte, and its request lines are the lines behind that one.
pub fn scripts_are_parted()
    ensures { ScriptsAreParted }
{}

/// What [`request_bytes`](crate::request_bytes) writes, [`read_request`](crate::read_request) reads as that again: the same goal, template,
/// chunk or reply, its variables numbered from 0 by first occurrence.
///
/// The terms are those of the code, the numbers of answers within their limits, and the written term's depth is at most 1,000, which is what the reader
/// takes. Instead of the length of the text that was read, the request that is read again has that of the text that was written, and no names.
pub fn requests_are_read_again()
    ensures { RequestsAreReadAgain }
{
    what_is_written_is_read_again();
}
