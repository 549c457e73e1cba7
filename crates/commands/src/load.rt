ghost use Rattle.std.specs.Prelude.{◌≡◌, None};
ghost use Rattle.std.specs.Option.{option_map};
ghost use Rattle.commands.specs.Answer.{content};
ghost use Rattle.input_files.specs.Files.{metrics_in, tree_in};
ghost use Rattle.commands.specs.Ends.{Answers};
ghost use Rattle.commands.specs.Parts.{OpensScript, SelectsScript};

use doc_io::{Inputs, LineReader, read_all};
use font_metrics::Metrics;
use input_files::{Refusal, TREE_LIMIT, metrics_of, tree_of};
use math_tree::Tree;
use metrics_file::MOST_FILE_BYTES;
use std::alloc::Global;

/// Reads the metrics of a file.
pub fn load_metrics<I: Inputs>(
    alloc: Global,
    name: &str,
    inputs: &mut I,
) -> Result<Metrics, Refusal>
    ensures { Answers
        (option_map (λ files. metrics_in (content files name.now)) (I.told inputs.old).files)
        (λ files. files name.now ≡ None)
        (I.told inputs.old) (I.told inputs.new) result }
{
    match read_all(alloc, inputs, name, MOST_FILE_BYTES) {
        Ok(bytes) => metrics_of(alloc, bytes.as_slice()),
        Err(refusal) => Err(Refusal::of_reading(refusal, Refusal::MetricsLong)),
    }
}

/// Reads the tree of a file.
pub fn load_tree<I: Inputs>(alloc: Global, name: &str, inputs: &mut I) -> Result<Tree, Refusal>
    ensures { Answers
        (option_map (λ files. tree_in (content files name.now)) (I.told inputs.old).files)
        (λ files. files name.now ≡ None)
        (I.told inputs.old) (I.told inputs.new) result }
{
    match read_all(alloc, inputs, name, TREE_LIMIT) {
        Ok(bytes) => tree_of(alloc, bytes.as_slice()),
        Err(refusal) => Err(Refusal::of_reading(refusal, Refusal::TreeLong)),
    }
}

/// Selects a script, and makes the reader of its lines.
pub fn open_script<I: Inputs>(
    alloc: Global,
    name: &str,
    inputs: &mut I,
) -> Result<LineReader, Refusal>
    ensures { OpensScript (I.told inputs.old) (I.told inputs.new) name.now result }
{
    select_script(name, inputs)?;
    Ok(LineReader::make(alloc)?)
}

/// Selects a script.
fn select_script<I: Inputs>(name: &str, inputs: &mut I) -> Result<(), Refusal>
    ensures { SelectsScript (I.told inputs.old) (I.told inputs.new) name.now result }
{
    match inputs.select(name) {
        Ok(()) => Ok(()),
        Err(_) => Err(Refusal::ReadFault),
    }
}
