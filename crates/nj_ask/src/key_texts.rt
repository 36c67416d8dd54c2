//! The texts of a command, and the bases that it names.

ghost use Rattle.std.specs.Prelude.{◌≡◌, true, IfOk, OnOk, codes, not};
ghost use Rattle.nj_ask.specs.Cited.{AddsMember, AddsTexts, AddsValue, OfEdge, array, bases_named, content_of, edge_of, is_empty, is_named_base, key_texts, late_text_of, names_base, number_items};

use crate::json_text::{add_bool, add_text, begin_member, push_number};
use nj_graph::Edge;
use nj_keys::Bases;
use std::alloc::{AllocError, Global};
use std::marker::Model;

/// The texts of a command.
#[derive(Drop)]
pub(crate) struct Texts {
    command: Vec<u8>,
    response_file: Vec<u8>,
    response: Vec<u8>,
    depfile: Vec<u8>,
    pool: Vec<u8>,
    generator: bool,
}

impl Model for Texts {
    ghost use Rattle.nj_ask.specs.KeyObjects.{KeyTexts};

    ghost Value = { KeyTexts };

    ghost view = { λ t. record {
      command = t.command.items;
      response_file = t.response_file.items;
      response = t.response.items;
      depfile = t.depfile.items;
      pool = t.pool.items;
      generator = t.generator;
    } };
}

/// The texts of the command of an edge.
pub(crate) fn key_texts(alloc: Global, edge: Edge<'_>) -> Result<Texts, AllocError>
    ensures { OfEdge (edge_of edge.entry) (λ entries number.
        IfOk result (λ texts. texts ≡ key_texts entries number)) }
{
    let command = edge.variable(alloc, b"command")?;
    let response_file = edge.variable(alloc, b"rspfile")?;
    let response = response_of(alloc, edge, &response_file)?;
    let depfile = edge.variable(alloc, b"depfile")?;
    let pool = edge.variable(alloc, b"pool")?;
    let generator = has_value(&edge.variable(alloc, b"generator")?);
    Ok(Texts {
        command,
        response_file,
        response,
        depfile,
        pool,
        generator,
    })
}

/// Whether a text is not empty.
fn has_value(text: &[u8]) -> bool
    ensures { result ≡ not (is_empty text.now) }
{
    !text.is_empty()
}

/// The content of the response file of an edge, if the file has a name.
fn response_of(alloc: Global, edge: Edge<'_>, file: &[u8]) -> Result<Vec<u8>, AllocError>
    ensures { OfEdge (edge_of edge.entry) (λ entries number.
        IfOk result (λ text. text.items ≡ content_of file.now
        (late_text_of entries number (codes "rspfile_content")))) }
{
    if file.is_empty() {
        return Ok(Vec::new(alloc));
    }
    edge.variable(alloc, b"rspfile_content")
}

/// Adds the texts of a command as members after others.
pub(crate) fn add_texts(text: &mut Vec<u8>, texts: &Texts) -> Result<(), AllocError>
    ensures { OnOk result (AddsTexts texts.now text.old.items text.new.items) }
{
    add_text(text, "response_file", &texts.response_file)?;
    add_text(text, "response", &texts.response)?;
    add_text(text, "command", &texts.command)?;
    add_text(text, "depfile", &texts.depfile)?;
    add_bool(text, "generator", texts.generator)?;
    add_text(text, "pool", &texts.pool)
}

/// Adds the numbers of the bases that a command names as a member after others. Each of the bases has
/// one directory.
pub(crate) fn add_bases(
    text: &mut Vec<u8>,
    bases: &[Bases],
    texts: &Texts,
) -> Result<(), AllocError>
    ensures { OnOk result (AddsMember true (codes "bases")
        (array (number_items (bases_named bases.now texts.now)))
        text.old.items text.new.items) }
{
    begin_member(text, true, "bases")?;
    push_bases(text, bases, texts)
}

/// Appends the numbers of the bases that a command names, as an array.
fn push_bases(text: &mut Vec<u8>, bases: &[Bases], texts: &Texts) -> Result<(), AllocError>
    ensures { OnOk result (AddsValue (array (number_items (bases_named bases.now texts.now)))
        text.old.items text.new.items) }
{
    let alloc = *text.allocator();
    text.push(b'[')?;
    let mut later = false;
    'bases: for (number, base) in bases.iter().enumerate() {
        if is_named(alloc, base, texts)? {
            push_number(text, later, number)?;
            later = true;
        }
    }
    text.push(b']')?;
    Ok(())
}

/// Whether the command, or the name or the content of its response file, names a base.
fn is_named(alloc: Global, base: &Bases, texts: &Texts) -> Result<bool, AllocError>
    ensures { IfOk result (λ named. named ≡ is_named_base texts.now base.now) }
{
    Ok(
        names_base(alloc, base, &texts.command)?
            || names_base(alloc, base, &texts.response_file)?
            || names_base(alloc, base, &texts.response)?,
    )
}

/// Whether a text names a base.
fn names_base(alloc: Global, base: &Bases, text: &[u8]) -> Result<bool, AllocError>
    ensures { IfOk result (λ named. named ≡ names_base base.now text.now) }
{
    let mut mapped = Vec::new(alloc);
    base.append_mapped(&mut mapped, text)?;
    Ok(mapped.as_slice() != text)
}
