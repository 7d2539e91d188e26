// The theorems over the worked network and some smaller ones; each stands on a function, so that a check asks for it.
ghost use Rattle.worked_lines.specs.Worked.{WorkedLines, OnlyThese};
ghost use Rattle.worked_lines.specs.Further.{FurtherLines, RouteLines, ScaleLines, RunLines};

pub fn worked_lines_hold()
    ensures { WorkedLines }
{}

pub fn only_these_hold()
    ensures { OnlyThese }
{}

pub fn further_lines_hold()
    ensures { FurtherLines }
{}

pub fn route_lines_hold()
    ensures { RouteLines }
{}

pub fn scale_lines_hold()
    ensures { ScaleLines }
{}

pub fn run_lines_hold()
    ensures { RunLines }
{}
