//! Laws of the definitions. Each is a contract, so that it is proved; the functions compute
//! nothing.
ghost use Rattle.metrics_file.specs.Laws.{MetricsLaw, FaultLaw, TakenLaw, ConstantLaw};
ghost use Rattle.metrics_file.specs.Print.{PrintReadsBack};

/// A file that gives metrics has no faulty line, and the metrics are what its lines say: glyphs,
/// the entries of tables and operator lines in file order, a constant's value and a character's
/// glyph by the one line that names them.
pub fn metrics_are_what_lines_say()
    ensures { MetricsLaw }
{}

/// The fault of a file is that of a line before which none is faulty, by the first kind that holds;
/// or no line is faulty, and the file ends without something.
pub fn the_first_fault_is_told()
    ensures { FaultLaw }
{}

/// Whatever a file gives lies in its ranges, names glyphs that are there, and gives nothing twice.
pub fn what_is_given_is_taken()
    ensures { TakenLaw }
{}

/// A constant's own name is read as its place.
pub fn a_constant_is_read_by_its_name()
    ensures { ConstantLaw }
{}

/// Reading the print of metrics that a file may give gives the same metrics.
pub fn reading_a_print_gives_the_metrics()
    ensures { PrintReadsBack }
{}
