// The order of a report.
ghost use Rattle.std.specs.Prelude.{Contains};
ghost use Rattle.hack_types.specs.declared.diag.FileDiag.{FileDiag};
ghost use Rattle.hack_types.specs.Report.{IsReport};

use hack_types::FileDiag;

/// The diagnostics of a list as a report has them: each once, by file, line, column, code and text
/// (docs/language.md, Reports). It takes no memory.
pub fn in_report_order(list: Vec<FileDiag>) -> Vec<FileDiag>
    ensures { IsReport (λ d. Contains list.items d) result.items }
{
    let mut report = list;
    report.sort_unstable();
    report.dedup();
    report
}
