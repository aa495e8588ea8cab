ghost use Rattle.std.specs.Prelude.{◌≡◌, ◌++◌, [], ◌∷◌, IfOk, OnOk, cond};
ghost use Rattle.scalar_value.specs.Gives.{Gives};
ghost use Rattle.row_table.specs.Tables.{among_texts};
ghost use Rattle.group_rules.specs.Groups.{summarised_groups, renamed_groups, new_name, selected_groups, each_once, groups_by};

use scalar_value::{Mem, Or, Res, Seq, Text};
use std::alloc::Global;

/// Which groups a summary leaves, as the `.groups` of dplyr's `summarise`: all but the last, none, or all.
#[derive(Debug, Clone, Copy, PartialEq, Eq)]
pub enum Dropping {
    DropLast,
    Drop,
    Keep,
}

/// Why a verb's groups are refused: dplyr takes no `.by` on a table that is grouped.
#[derive(Debug, Clone, Copy, PartialEq, Eq)]
pub enum GroupFault {
    ByOnGroups,
}

fn copied(alloc: Global, names: &[Text]) -> Mem<Seq<Text>>
    ensures { IfOk result (λ made. made ≡ names.now) }
{
    let mut made = Seq::new(alloc);
    for name in names {
        made.push(name.copy()?)?;
    }
    Ok(made)
}

/// The groups after dplyr's `summarise`. Without groups there are none after it either.
/// The only error is want of memory.
pub fn after_summarise(alloc: Global, groups: &Seq<Text>, how: Dropping) -> Mem<Seq<Text>>
    ensures { IfOk result (λ made. made ≡ summarised_groups how groups.now) }
{
    match how {
        Dropping::DropLast => {
            let groups = groups.as_slice();
            if groups.is_empty() {
                return Ok(Seq::new(alloc));
            }
            copied(alloc, &groups[..groups.len() - 1])
        }
        Dropping::Drop => Ok(Seq::new(alloc)),
        Dropping::Keep => copied(alloc, groups.as_slice()),
    }
}

/// The groups after dplyr's `rename(to = from)`: a group named `from` is named `to`, and the others stay.
/// The only error is want of memory.
pub fn after_rename(alloc: Global, groups: &Seq<Text>, from: &Text, to: &Text) -> Mem<Seq<Text>>
    ensures { IfOk result (λ made. made ≡ renamed_groups from.now to.now groups.now) }
{
    let mut made = Seq::new(alloc);
    for group in groups.as_slice() {
        let name = if group == from { to } else { group };
        made.push(name.copy()?)?;
    }
    Ok(made)
}

/// The new name of a column: that of the first pair with its old name, and its own where there is none.
fn renamed<'a>(kept: &'a Seq<(Text, Text)>, name: &'a Text) -> &'a Text
    ensures { result.now ≡ new_name kept.now name.now }
{
    for pair in kept.as_slice() {
        if pair.0 == *name {
            return &pair.1;
        }
    }
    name
}

/// The groups after dplyr's `select`, which keeps the columns of these pairs of an old and a new name.
///
/// Each group stays, under its new name; one that is not selected is put in front of the selection and keeps its name.
/// If an old name stands in several pairs the first counts. The only error is want of memory.
pub fn after_select(alloc: Global, groups: &Seq<Text>, kept: &Seq<(Text, Text)>) -> Mem<Seq<Text>>
    ensures { IfOk result (λ made. made ≡ selected_groups kept.now groups.now) }
{
    let mut made = Seq::new(alloc);
    for group in groups.as_slice() {
        made.push(renamed(kept, group).copy()?)?;
    }
    Ok(made)
}

fn is_among(name: &Text, names: &Seq<Text>) -> bool
    ensures { result ≡ among_texts name.now names.now }
{
    for other in names.as_slice() {
        if other == name {
            return true;
        }
    }
    false
}

/// Puts the name at the end unless it is there.
fn add_once(names: &mut Seq<Text>, name: &Text) -> Mem<()>
    ensures { OnOk result (names.new ≡ cond (among_texts name.now names.old) names.old (names.old ++ name.now ∷ [])) }
{
    if !is_among(name, names) {
        names.push(name.copy()?)?;
    }
    Ok(())
}

fn once(alloc: Global, names: &Seq<Text>) -> Mem<Seq<Text>>
    ensures { IfOk result (λ made. made ≡ each_once names.now) }
{
    let mut made = Seq::new(alloc);
    for name in names.as_slice() {
        add_once(&mut made, name)?;
    }
    Ok(made)
}

/// The groups of a verb with dplyr's `.by`, for that verb alone: each of its names once, where it first stands.
/// `ByOnGroups` is the answer exactly where the table has groups. The only other error is want of memory.
pub fn add_by(alloc: Global, groups: &Seq<Text>, by: &Seq<Text>) -> Res<Seq<Text>, GroupFault>
    ensures { Gives result (groups_by groups.now by.now) }
{
    if !groups.is_empty() {
        return Err(Or::Fault(GroupFault::ByOnGroups));
    }
    Ok(once(alloc, by)?)
}
