// Laws of the definitions: a call does nothing, and its contract is the law.

ghost use Rattle.front_laws.specs.Accepted.{AcceptedIsReady, AnswersAreOne, DataAnswersAreOne};

use crate::named::{specifications_are_named, text_types_are_named};
use equation_laws::laws::{decrease_has_one_answer, shape_has_one_answer};
use lotos_ast::laws::{reading_has_at_most_one_result, tokens_are_determined};
use static_laws::presentation::presentations_are_named;
use static_laws::specification as specifications;
use static_laws::specification::compiled_is_ready;
use static_presentation::laws::own_equations_are_one;
use static_uniqueness::specifications::the_same_is_judged;
use static_uniqueness::trees::tokens_determine_specifications;
use static_uniqueness::types::{the_same_is_presented, the_same_is_read, the_same_is_refused};
use syntax_laws::name_laws::tokens_are_named;

/// A text that is accepted is compiled to a program that is ready to run: its data are executable, all that it names is there and fits, and
/// no process calls itself before any action.
pub fn accepted_is_ready()
    ensures { AcceptedIsReady }
{
    tokens_are_named();
    text_types_are_named();
    specifications_are_named();
    presentations_are_named();
    compiled_is_ready();
}

/// The data of a text that can be run are one, or one refusal of them is the first, and never both.
#[tactic(auto, using(crate::proofs::Data::data_answers_one))]
pub fn data_answers_are_one()
    ensures { DataAnswersAreOne }
{
    tokens_are_determined();
    reading_has_at_most_one_result();
    shape_has_one_answer();
    decrease_has_one_answer();
    own_equations_are_one();
    the_same_is_refused();
    the_same_is_read();
    the_same_is_presented();
}

/// A text is accepted with one program, or one refusal of it is the first, and never both.
pub fn answers_are_one()
    ensures { AnswersAreOne }
{
    data_answers_are_one();
    tokens_are_determined();
    the_same_is_judged();
    specifications::answers_are_one();
    tokens_determine_specifications();
}
