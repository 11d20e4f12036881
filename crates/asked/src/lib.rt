// What a call on a list asks first: that the goal fits the book, and that the list has 1 to 1,000,000 numbers.
#![tactic(auto)]

ghost use Rattle.std.specs.Prelude.{◌≡◌};
ghost use Rattle.lists.specs.Derivation.{judge_goal, judge_length};
ghost use Rattle.book.specs.Held.{meant};
ghost use Rattle.reply.specs.Answer.{told};

use book::Book;
use reply::refuse;

// 10: the goal is a relation's number with as many values as it has places.
pub fn judged_goal(book: &Book, relation: usize, values: &[i32]) -> reply::Answer
    ensures { result ≡ told (judge_goal (meant book.now) relation values.now) }
{
    if book.relations() <= relation {
        return refuse(10, 0);
    }
    if values.len() == book.arity(relation) {
        Ok(0)
    } else {
        refuse(10, 0)
    }
}

// 11: the list has 1 to 1,000,000 numbers.
#[tactic(auto, unfolding(lists::specs::Derivation::judge_length, reply::specs::Answer::need, reply::specs::Answer::told))]
pub fn judged_length(list: &[i32]) -> reply::Answer
    ensures { result ≡ told (judge_length list.now) }
{
    if list.is_empty() {
        return refuse(11, 0);
    }
    if 1000000 < list.len() {
        refuse(11, 0)
    } else {
        Ok(0)
    }
}
