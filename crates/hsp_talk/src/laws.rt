// What holds of lines.

ghost use Rattle.hsp_talk.specs.Laws.{LinesEndOnce, LinesMakeOctets};

/// Octets are their whole lines, each with its line feed, and then their last line. No line has a line feed within it.
pub fn octets_by_lines()
    ensures make { LinesMakeOctets }
    ensures once { LinesEndOnce }
{}
