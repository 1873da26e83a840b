//! Laws of the definitions, each as the contract of a function that does nothing else.
ghost use Rattle.std.specs.Prelude.{ℕ, List as ListOf};
ghost use Rattle.cal_schema.specs.declared.schema.Schema.{Schema};
ghost use Rattle.cal_snapshot.specs.Parts.{Parts};
ghost use Rattle.rule_hep.specs.Meaning.{Meaning};
ghost use Rattle.session_lane.specs.declared.reply.Reply.{Reply};
ghost use Rattle.session_lane.specs.Replies.{AreSameReplies, IsReplyTo};

use sql_parser::one_statement;
use sql_text::each_text_reads_one_way;

/// Two right replies to a text over a schema and a snapshot, planned by the same rules, are the same up to the order of rows.
pub fn one_reply_is_right()
    ensures { (rules : ListOf Meaning) (budget : ℕ) (schema : Schema) (parts : Parts)
        (text : ListOf ℕ) (a b : Reply)
        → IsReplyTo rules budget schema parts text a → IsReplyTo rules budget schema parts text b
        → AreSameReplies a b }
{
    each_text_reads_one_way();
    one_statement();
}
