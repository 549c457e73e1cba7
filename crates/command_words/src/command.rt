ghost use Rattle.std.specs.Prelude.{◌≡◌, [], ◌∷◌, Some, None, IfOk, OnErr, map, string_bytes};
ghost use Rattle.std.specs.Option.{option_map};
ghost use Rattle.command_words.specs.Command.{asked_by, asked_of, generation_of, job_named, job_of, remembering, work_named, work_of};

use crate::numerals::{count_of, depth_of, seed_of};
use crate::query::query_of;
use page_queries::Query;
use thiserror::Error;

/// What the user is told whose words are no command.
pub const USAGE: &str = "usage: mathlay layout METRICS TREE | edit METRICS TREE SCRIPT \
    | check METRICS TREE | gen METRICS SEED COUNT | paint METRICS TREE | hit METRICS TREE X Y \
    | select METRICS TREE ID ID | history DEPTH METRICS TREE SCRIPT\n";

/// The words are no command.
#[derive(Clone, Copy, Debug, PartialEq, Eq, Error)]
#[error("the words are no command")]
pub struct NoCommand;

/// What is done with a metrics file and a tree file.
#[derive(Clone, Copy, Debug)]
pub enum Task<'a> {
    /// Writes the lines of the tree's boxes.
    Layout,
    /// Answers the lines of the script of that name.
    Edit(&'a str),
    /// Writes the canonical print of both files.
    Check,
    /// Answers what is asked of the page.
    Ask(Query),
    /// Answers the lines of the script of that name, where so many edits can be undone.
    Remember(u32, &'a str),
}

/// What is done with a metrics file.
#[derive(Clone, Copy, Debug)]
pub enum Job<'a> {
    /// A task is done with the tree file of that name.
    OverTree(Task<'a>, &'a str),
    /// So many edits that are drawn from a seed are made of a tree of its own: seed, count.
    Generate(u64, u32),
}

/// A job, and the metrics file that it is done with.
#[derive(Clone, Copy, Debug)]
pub struct Request<'a> {
    /// What is done.
    pub job: Job<'a>,
    /// The name of the metrics file.
    pub metrics: &'a str,
}

impl<'a> Request<'a> {
    /// Reads the words after the program's name: `layout METRICS TREE`, `edit METRICS TREE SCRIPT`,
    /// `check METRICS TREE`, `gen METRICS SEED COUNT`, `paint METRICS TREE`,
    /// `hit METRICS TREE X Y`, `select METRICS TREE ID ID` or `history DEPTH METRICS TREE SCRIPT`,
    /// and nothing else.
    pub fn from_words(words: &'a [String]) -> Result<Request<'a>, NoCommand>
        ensures ok { IfOk result (λ request.
            asked_by (map string_bytes words.now) ≡ Some (asked_of request)) }
        ensures err { OnErr result (asked_by (map string_bytes words.now) ≡ None) }
    {
        if words.len() < 3 {
            return Err(NoCommand);
        }
        if words[0].as_str() == "history" {
            return Request::to_remember(words[1].as_str(), words[2].as_str(), &words[3..]);
        }
        match Job::of_words(words[0].as_str(), words[2].as_str(), &words[3..]) {
            Some(job) => Ok(Request {
                job,
                metrics: words[1].as_str(),
            }),
            None => Err(NoCommand),
        }
    }
}

impl<'a> Request<'a> {
    /// A script whose edits can be undone: a depth, the metrics file, and the words behind it.
    fn to_remember(
        depth: &str,
        metrics: &'a str,
        others: &'a [String],
    ) -> Result<Request<'a>, NoCommand>
        ensures ok { IfOk result (λ request.
            remembering depth.now metrics.now (map string_bytes others.now)
            ≡ Some (asked_of request)) }
        ensures err { OnErr result
            (remembering depth.now metrics.now (map string_bytes others.now) ≡ None) }
    {
        match (depth_of(depth), others) {
            (Some(depth), [tree, script]) => Ok(Request {
                job: Job::OverTree(Task::Remember(depth, script.as_str()), tree.as_str()),
                metrics,
            }),
            _ => Err(NoCommand),
        }
    }
}

impl<'a> Job<'a> {
    /// The job that a word names, by the words behind the metrics file.
    fn of_words(word: &str, next: &'a str, others: &'a [String]) -> Option<Job<'a>>
        ensures { option_map job_of result
            ≡ job_named word.now next.now (map string_bytes others.now) }
    {
        if word == "gen" {
            Job::of_numbers(next, others)
        } else {
            let task = Task::of_words(word, others)?;
            Some(Job::OverTree(task, next))
        }
    }

    /// The edits of a seed and a count.
    fn of_numbers(seed: &str, others: &'a [String]) -> Option<Job<'a>>
        ensures { option_map job_of result ≡ generation_of seed.now (map string_bytes others.now) }
    {
        match others {
            [count] => {
                let seed = seed_of(seed)?;
                let count = count_of(count.as_str())?;
                Some(Job::Generate(seed, count))
            }
            _ => None,
        }
    }
}

impl<'a> Task<'a> {
    /// The task that a word names, by the words behind the two files.
    fn of_words(word: &str, others: &'a [String]) -> Option<Task<'a>>
        ensures { option_map work_of result ≡ work_named word.now (map string_bytes others.now) }
    {
        match others {
            [] => Task::of_word(word),
            [script] => Task::over_script(word, script.as_str()),
            [first, second] => Task::over_two(word, first.as_str(), second.as_str()),
            _ => None,
        }
    }

    /// The task that a word names, where no script is named.
    fn of_word(word: &str) -> Option<Task<'a>>
        ensures { option_map work_of result ≡ work_named word.now [] }
    {
        match word {
            "layout" => Some(Task::Layout),
            "check" => Some(Task::Check),
            "paint" => Some(Task::Ask(Query::Paint)),
            _ => None,
        }
    }

    /// The task that a word names, where a script is named.
    fn over_script(word: &str, script: &'a str) -> Option<Task<'a>>
        ensures { option_map work_of result ≡ work_named word.now (script.now ∷ []) }
    {
        if word == "edit" {
            Some(Task::Edit(script))
        } else {
            None
        }
    }

    /// The task that a word names, where two words more are given.
    fn over_two(word: &str, first: &str, second: &str) -> Option<Task<'a>>
        ensures { option_map work_of result ≡ work_named word.now (first.now ∷ second.now ∷ []) }
    {
        let query = query_of(word, first, second)?;
        Some(Task::Ask(query))
    }
}
