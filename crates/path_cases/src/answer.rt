ghost use Rattle.std.specs.Prelude.{◌<◌, length};
ghost use Rattle.shapes_profile.specs.Shapes.{shape_terms};

use crate::case_text::Case;
use crate::question::Question;
use crate::refusal::CaseError;
use crate::setting::Setting;
use crate::terms_text::{push_term, push_terms};
use path_eval::{is_instance, reached};
use rdf_terms::Term;
use std::alloc::Global;
use targets::focus_nodes;

/// The name of a case, the focus nodes of its shapes, and the answers to its questions.
pub fn answer_of(alloc: Global, case: &Case) -> Result<String, CaseError> {
    let name = &case.name;
    let mut out = format!(in alloc; "== {name}\n")?;
    let setting = Setting::new(alloc, case)?;
    for shape in 0..setting.shapes.shape_count() {
        push_focus_nodes(alloc, &mut out, &setting, shape)?;
    }
    for question in &case.questions {
        push_answer(alloc, &mut out, &setting, question)?;
    }
    Ok(out)
}

/// Appends the line of the focus nodes of a shape.
fn push_focus_nodes(
    alloc: Global,
    out: &mut String,
    setting: &Setting,
    shape: usize,
) -> Result<(), CaseError>
    requires { shape < length (shape_terms setting.now.shapes) }
{
    push_term(
        alloc,
        out,
        "focus nodes of",
        setting.shapes.shape_term(shape),
    )?;
    let nodes = focus_nodes(alloc, &setting.shapes, shape, &setting.data)?;
    push_terms(alloc, out, &nodes, setting.counted)
}

/// Appends the answer to a question.
fn push_answer(
    alloc: Global,
    out: &mut String,
    setting: &Setting,
    question: &Question,
) -> Result<(), CaseError> {
    match question {
        Question::From(term) => push_reached_by_all(alloc, out, setting, term),
        Question::Instance { node, class } => {
            push_term(alloc, out, "instance", node)?;
            push_term(alloc, out, " of", class)?;
            let is_one = is_instance(alloc, &setting.data, node, class)?;
            out.push_str(if is_one { ": yes\n" } else { ": no\n" })?;
            Ok(())
        }
    }
}

/// Appends what the path of each property shape reaches from the term.
fn push_reached_by_all(
    alloc: Global,
    out: &mut String,
    setting: &Setting,
    from: &Term,
) -> Result<(), CaseError> {
    push_term(alloc, out, "from", from)?;
    out.push('\n')?;
    for shape in 0..setting.shapes.shape_count() {
        push_reached(alloc, out, setting, shape, from)?;
    }
    Ok(())
}

/// Appends the line of what the path of a shape reaches from the term, where it is a property shape.
fn push_reached(
    alloc: Global,
    out: &mut String,
    setting: &Setting,
    shape: usize,
    from: &Term,
) -> Result<(), CaseError>
    requires { shape < length (shape_terms setting.now.shapes) }
{
    if let Some(path) = setting.shapes.path_of(shape) {
        push_term(alloc, out, " ", setting.shapes.shape_term(shape))?;
        let found = reached(alloc, &setting.shapes, path, &setting.data, from)?;
        push_terms(alloc, out, &found, setting.counted)?;
    }
    Ok(())
}
