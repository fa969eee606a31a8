// One line of the queue program's input answered: its command is a call on the lent image, and the call's answer is added to a text. What it does is specs/Replies.
#![tactic(auto)]

ghost use Rattle.std.specs.Prelude.{◌+◌, ◌≤◌, length};
ghost use Rattle.pieces.specs.Texts.{Adds};
ghost use Rattle.answers.specs.Answers.{longest_text, refused_text};
ghost use Rattle.level_queue.specs.Answers.{reply_in};
ghost use Rattle.refusals.specs.Numbers.{number_of, numbered};
ghost use Rattle.replies.specs.Replies.{reply_text, min_answer_text, Responds};

use command::Command;
use delete_min::Popped;
use pieces::Text;
use refusals::Refusal;

// Answers one line: the call on the image, and the text of its answer.
pub fn respond(line: &[u8], image: &mut [u64], text: &mut Text)
    requires { text.old.end + longest_text ≤ length text.old.bytes.now }
    ensures { Responds line.now image.old text.old image.new text.new × (text.new.end ≤ text.old.end + longest_text) }
{
    match command::command_of(line) {
        Command::New(n) => put_answer(text, level_queue::fresh(image, n)),
        Command::Dec { id, key } => put_answer(text, level_queue::decrease(image, id, key)),
        Command::Del(id) => put_answer(text, level_queue::delete(image, id)),
        Command::Min => put_min_answer(text, level_queue::delete_min(image)),
        Command::Other => put_refused(text, Refusal::OtherForm), // "a line of any other form gives `refused 7`"
    }
}

// "It prints only for `min` .. and for refusals".
fn put_answer(text: &mut Text, a: Result<(), Refusal>)
    requires { text.old.end + longest_text ≤ length text.old.bytes.now }
    ensures { Adds text.old (reply_text (reply_in a)) text.new × (text.new.end ≤ text.old.end + longest_text) }
{
    if let Err(r) = a {
        put_refused(text, r);
    }
}

// "`min ID KEY REACH` or `empty REACH`".
fn put_min_answer(text: &mut Text, a: Result<Popped, Refusal>)
    requires { text.old.end + longest_text ≤ length text.old.bytes.now }
    ensures { Adds text.old (min_answer_text (numbered a)) text.new × (text.new.end ≤ text.old.end + longest_text) }
{
    match a {
        Ok(Popped::Min { id, key, reach }) => answers::min(text, id, key, reach),
        Ok(Popped::Empty { reach }) => answers::empty(text, reach),
        Err(r) => put_refused(text, r),
    }
}

// "`refused NO`".
fn put_refused(text: &mut Text, r: Refusal)
    requires { text.old.end + longest_text ≤ length text.old.bytes.now }
    ensures { Adds text.old (refused_text (number_of r)) text.new × (text.new.end ≤ text.old.end + longest_text) }
{
    answers::refused(text, u64::from(r));
}
