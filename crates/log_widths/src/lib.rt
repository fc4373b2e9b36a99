//! The numbers that a node's log has fit in the fields of its journal: laws only. The functions do nothing: their contracts are the laws.
#![tactic(auto)]

ghost use Rattle.log_widths.specs.Laws.{BeginningKeepsWidths, ChangesKeepWidths, EmptyHasWidths, HomingKeepsWidths, SettlingKeepsWidths, StepsKeepWidths, WidthsAreNumbers};

use log_layout::headers_read_back;

/// A law: whatever is done to a log, its numbers stay within their widths, if those of each change are.
pub fn widths_stay()
    ensures empty { EmptyHasWidths }
    ensures changes { ChangesKeepWidths }
    ensures beginning { BeginningKeepsWidths }
    ensures steps { StepsKeepWidths }
    ensures homing { HomingKeepsWidths }
    ensures settling { SettlingKeepsWidths }
{}

/// A law: so what a flush logs, and its header, are read as they were written.
pub fn widths_are_numbers()
    ensures { WidthsAreNumbers }
{
    headers_read_back();
}
