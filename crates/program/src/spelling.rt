// The types of a program as texts.
ghost use Rattle.std.specs.Prelude.{◌≡◌, ◌++◌, IfOk, string_bytes, OnOk};
ghost use Rattle.types.specs.TypeRefs.{meant};
ghost use Rattle.lang.specs.Check.{Checked};
ghost use Rattle.program.specs.Answers.{Is};
ghost use Rattle.program.specs.Spelling.{spelled};

use super::checked::CheckedProgram;
use std::alloc::{AllocError, Global};
use types::type_ref::{Shape, TypeRef};

// Adds the text of a type.
fn spell(t: TypeRef<'_>, out: &mut String) -> Result<(), AllocError>
    ensures { OnOk result (string_bytes out.new ≡ string_bytes out.old ++ spelled (meant t.entry)) }
{
    match t.shape() {
        Shape::Int => out.push_str("int"),
        Shape::Bool => out.push_str("bool"),
        Shape::Pair(first, second) => {
            out.push_str("(")?;
            spell(first, out)?;
            out.push_str(",")?;
            spell(second, out)?;
            out.push_str(")")
        }
        Shape::List(element) => {
            out.push_str("[")?;
            spell(element, out)?;
            out.push_str("]")
        }
    }
}

// The text of a type.
fn text_of(t: TypeRef<'_>, heap: Global) -> Result<String, AllocError>
    ensures { IfOk result (λ s. string_bytes s ≡ spelled (meant t.entry)) }
{
    let mut text = String::new(heap);
    spell(t, &mut text)?;
    Ok(text)
}

impl CheckedProgram {
    // The text of main's parameter type.
    pub fn parameter_text(&self, heap: Global) -> Result<String, AllocError>
        ensures { IfOk result (λ s. (c : Checked) → Is self.now c → string_bytes s ≡ spelled c.parameter) }
    {
        text_of(self.parameter(), heap)
    }

    // The text of main's result type.
    pub fn result_text(&self, heap: Global) -> Result<String, AllocError>
        ensures { IfOk result (λ s. (c : Checked) → Is self.now c → string_bytes s ≡ spelled c.result) }
    {
        text_of(self.result(), heap)
    }
}
