//! The jobs that each job waits for.
ghost use Rattle.std.specs.Prelude.{◌≡◌, ◌<◌, ◌^◌, ◌++◌, ◌∷◌, [], ℕ, List, All, length, map, slice_get, if◌then◌else◌, IfOk, OnOk};
ghost use Rattle.std.specs.FinMap as finmap;
ghost use Rattle.std.specs.Option.{option_map};
ghost use Rattle.std.specs.Str.{bytes_eq};
ghost use Rattle.em_learning.specs.Links as links;
ghost use Rattle.em_learning.specs.Links.{AreNumbers};
ghost use Rattle.em_learning.specs.Waits as waits;
ghost use Rattle.em_learning.specs.Waits.{ArePlanned};
ghost use Rattle.em_plan.specs.Jobs as jobs;

use em_base::{NoMemory, Seq, Table, Text};
use em_history::History;
use em_plan::SharedJob;
use std::alloc::Global;

/// The jobs that each job waits for by the plan.
fn planned(alloc: Global, jobs: &[SharedJob]) -> Result<Vec<Seq<u32>>, NoMemory>
    ensures { IfOk result (λ w. w.items ≡ map (λ j. j.waits) jobs.now) }
{
    let mut waits = Vec::with_capacity(alloc, jobs.len())?;
    for job in jobs {
        waits.push(Seq::from_vec(Vec::from_slice(alloc, job.get().waits.items())?))?;
    }
    Ok(waits)
}

/// The numbers of the name.
fn listed<'a>(numbers: &'a Table<Seq<u32>>, name: &[u8]) -> &'a [u32]
    ensures { result.now ≡ links.listed (finmap.get numbers.now name.now) }
{
    match numbers.get(name) {
        Some(numbers) => numbers.items(),
        None => &[],
    }
}

/// Takes the numbers of the name out of the table.
fn taken(alloc: Global, numbers: &mut Table<Seq<u32>>, name: &[u8]) -> Seq<u32>
    ensures value { result ≡ links.listed (finmap.get numbers.old name.now) }
    ensures rest { numbers.new ≡ finmap.remove numbers.old name.now }
{
    match numbers.remove(name) {
        Some(numbers) => numbers,
        None => Seq::new(alloc),
    }
}

/// Puts a number to those of the name.
fn put(
    alloc: Global,
    numbers: &mut Table<Seq<u32>>,
    name: &Text,
    number: u32,
) -> Result<(), NoMemory>
    ensures { OnOk result ((q : List ℕ) → links.listed (finmap.get numbers.new q)
        ≡ links.listed (finmap.get numbers.old q)
        ++ (if bytes_eq q name.now then number ∷ [] else [])) }
{
    let mut own = taken(alloc, numbers, name.bytes());
    own.push(number)?;
    numbers.insert(name.copy(alloc)?, own)?;
    Ok(())
}

/// The numbers of the jobs by their targets.
fn numbers(alloc: Global, jobs: &[SharedJob]) -> Result<Table<Seq<u32>>, NoMemory>
    requires { length jobs.now < 2 ^ 32 }
    ensures { IfOk result (λ t. AreNumbers (λ name. links.listed (finmap.get t name)) jobs.now) }
{
    let mut numbers = Table::new(alloc);
    for (number, job) in jobs.iter().enumerate() {
        put(alloc, &mut numbers, &job.get().target, number as u32)?;
    }
    Ok(numbers)
}

/// Puts to the waits of job `made` those of the numbers that are below it.
fn add_lower(waits: &mut Seq<u32>, made: u32, needed: &[u32]) -> Result<(), NoMemory>
    ensures { OnOk result (waits.new ≡ waits.old ++ links.lower made needed.now) }
{
    for number in needed {
        if *number < made {
            waits.push(*number)?;
        }
    }
    Ok(())
}

/// Puts to the waits of each job of `made` those of the numbers that are below it.
fn add(waits: &mut [Seq<u32>], made: &[u32], needed: &[u32]) -> Result<(), NoMemory>
    requires { All (λ m. m < length waits.old) made.now }
    ensures { OnOk result ((k : ℕ) → slice_get waits.new k ≡ option_map
        (λ w. w ++ links.added_by k made.now needed.now) (slice_get waits.old k)) }
{
    for job in made {
        add_lower(&mut waits[*job as usize], *job, needed)?;
    }
    Ok(())
}

/// Puts to the waits of each job the jobs below it with whose targets the pairs have its own.
fn add_all(
    numbers: &Table<Seq<u32>>,
    pairs: &[(Text, Text)],
    waits: &mut [Seq<u32>],
) -> Result<(), NoMemory>
    requires { (name : List ℕ) → All (λ m. m < length waits.old)
        (links.listed (finmap.get numbers.now name)) }
    ensures { OnOk result ((k : ℕ) → slice_get waits.new k ≡ option_map
        (λ w. w ++ links.added (λ name. links.listed (finmap.get numbers.now name)) pairs.now k)
        (slice_get waits.old k)) }
{
    for (made, needed) in pairs {
        let made = listed(numbers, made.bytes());
        add(waits, made, listed(numbers, needed.bytes()))?;
    }
    Ok(())
}

/// The numbers in rising order, once each.
fn rising(numbers: Seq<u32>) -> Seq<u32>
    ensures { result ≡ jobs.rising numbers }
{
    let mut numbers = numbers.into_vec();
    numbers.sort_unstable();
    numbers.dedup();
    Seq::from_vec(numbers)
}

/// Each of the lists in rising order, its numbers once each.
fn all_rising(alloc: Global, waits: Vec<Seq<u32>>) -> Result<Seq<Seq<u32>>, NoMemory>
    ensures { IfOk result (λ w. w ≡ map jobs.rising waits.items) }
{
    let mut risen = Seq::new(alloc);
    for numbers in waits {
        risen.push(rising(numbers))?;
    }
    Ok(risen)
}

/// Of each job, in rising order, the jobs below it that it waits for by the plan, or whose target
/// the history pairs with its own. Two searches by name for each job and for each pair, and n log n
/// for the n waits of each job; linear where the history is empty. Where several jobs have one
/// target, as those of double-colon rules have, a pair of names with m and n jobs puts up to m n
/// waits.
pub fn waits_with(
    alloc: Global,
    history: &History,
    jobs: &[SharedJob],
) -> Result<Seq<Seq<u32>>, NoMemory>
    requires { ArePlanned jobs.now }
    ensures { IfOk result (λ w. w ≡ waits.waits_with history.now jobs.now) }
{
    let mut waits = planned(alloc, jobs)?;
    let pairs = history.pairs();
    if pairs.is_empty() {
        return Ok(Seq::from_vec(waits));
    }
    let numbers = numbers(alloc, jobs)?;
    add_all(&numbers, pairs, waits.as_mut_slice())?;
    all_rising(alloc, waits)
}
