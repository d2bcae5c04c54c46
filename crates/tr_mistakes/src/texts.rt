ghost use Rattle.std.specs.Prelude.{◌≡◌, ℕ, List, ◌++◌, ◌∷◌, [], OnOk, codes, decimal};
ghost use Rattle.serde_json.specs.View.{view};
ghost use Rattle.tr_status.specs.Texts.{texts};
ghost use Rattle.tr_mistakes.specs.Told.{IsAllTold};
ghost use Rattle.tr_mistakes.specs.Texts.{IsTold, mistake_in, position_text, undotted};

use crate::lists::Mistaken;
use serde_json::Value;
use std::alloc::{AllocError, Global};
use tr_reading::{ScenarioFault, json};
use tr_scenario::Page;
use tr_text::TextBuffer;

/// Appends what is told of bytes that a fault refuses: the line and the column at which `serde_json` finds that they are no JSON,
/// else the first mistake of what isn't read as such a value, of which `most` bytes are allowed.
pub fn push_told<T: Mistaken>(
    alloc: Global,
    page: &mut Page,
    most: usize,
    bytes: &[u8],
    fault: ScenarioFault,
) -> Result<(), AllocError>
    ensures { OnOk result
        ((told : List ℕ)
        × IsTold T.mistake most bytes.now fault told
        × (page.new ≡ page.old ++ told)) }
{
    match fault {
        ScenarioFault::NotJson => push_position(alloc, page, bytes),
        _ => push_mistake::<T>(alloc, page, most, bytes),
    }
}

/// Appends the first mistake of bytes. Nothing is appended where they are no JSON.
fn push_mistake<T: Mistaken>(
    alloc: Global,
    page: &mut Page,
    most: usize,
    bytes: &[u8],
) -> Result<(), AllocError>
    ensures { OnOk result (page.new ≡ page.old ++ mistake_in T.mistake most bytes.now) }
{
    if bytes.len() > most {
        return push_too_many(page, most);
    }
    match json(alloc, bytes) {
        Ok(value) => push_value_mistake::<T>(alloc, page, &value),
        Err(ScenarioFault::NoMemory) => Err(AllocError),
        Err(_) => Ok(()),
    }
}

fn push_too_many(page: &mut Page, most: usize) -> Result<(), AllocError>
    ensures { OnOk result
        (page.new
        ≡ page.old ++ texts (codes ": more than " ∷ decimal most ∷ codes " bytes" ∷ [])) }
{
    let mut text = TextBuffer::<64>::new();
    text.prepend(b" bytes");
    text.prepend_number(most as u64);
    text.prepend(b": more than ");
    page.push(text.as_bytes())
}

fn push_value_mistake<T: Mistaken>(
    alloc: Global,
    page: &mut Page,
    value: &Value,
) -> Result<(), AllocError>
    ensures { OnOk result (page.new ≡ page.old ++ undotted (T.mistake (view value.now))) }
{
    let mut mistake = Page::new(alloc);
    T::push_mistake(alloc, &mut mistake, value)?;
    push_undotted(page, mistake.as_bytes())
}

fn push_undotted(page: &mut Page, mistake: &[u8]) -> Result<(), AllocError>
    ensures { OnOk result (page.new ≡ page.old ++ undotted mistake.now) }
{
    match mistake {
        [b'.', place @ ..] => {
            page.push(b": ")?;
            page.push(place)
        }
        _ => page.push(mistake),
    }
}

fn push_position(alloc: Global, page: &mut Page, bytes: &[u8]) -> Result<(), AllocError>
    ensures { OnOk result
        ((line column : ℕ) × (page.new ≡ page.old ++ position_text line column)) }
{
    let (line, column) = position(alloc, bytes)?;
    let mut text = TextBuffer::<64>::new();
    text.prepend_number(column as u64);
    text.prepend(b", column ");
    text.prepend_number(line as u64);
    text.prepend(b": line ");
    page.push(text.as_bytes())
}

fn position(alloc: Global, bytes: &[u8]) -> Result<(usize, usize), AllocError> {
    match Value::from_slice(alloc, bytes) {
        Ok(_) => Ok((0, 0)),
        Err(error) if error.is_memory() => Err(AllocError),
        Err(error) => Ok((error.line(), error.column())),
    }
}

/// Of each field, member and key that a reading refuses it is told what is wanted: its words aren't empty.
pub fn all_mistakes_are_told()
    ensures { IsAllTold }
{}
