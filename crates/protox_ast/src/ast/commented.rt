//! The comments of a declaration.

ghost use Rattle.std.specs.Prelude.{◌≡◌, ◌==◌, [], None, IsOk, IfOk};
ghost use Rattle.std.specs.Option.{option_copied, option_eq};
ghost use Rattle.std.specs.Ordering.{on, eq_of_both};
ghost use Rattle.std.specs.Cmp.Lexicographic.{pointwise};
ghost use Rattle.std.specs.Cmp.Rules.{comparing};
ghost use Rattle.std.proofs.Common.{rules};

use super::{Comments, HeldComments};
use protox_descriptor::values::{Items, Text};
use std::alloc::{AllocError, Global};
use std::boxed::Box;
use std::fmt;

impl Comments {
    /// These comments, or `AllocError`. Without a comment this takes no memory.
    pub fn new(
        alloc: Global,
        leading_detached_comments: Items<Text>,
        leading_comment: Option<Text>,
        trailing_comment: Option<Text>,
    ) -> Result<Comments, AllocError>
        ensures value { IfOk result (λ made. made ≡ record { leading_detached_comments = leading_detached_comments; leading_comment = leading_comment; trailing_comment = trailing_comment }) }
        ensures free { leading_detached_comments ≡ [] → leading_comment ≡ None → trailing_comment ≡ None → IsOk result }
    {
        if leading_comment.is_none()
            && trailing_comment.is_none()
            && leading_detached_comments.is_empty()
        {
            return Ok(Comments { held: None });
        }
        let held = Box::new(
            alloc,
            HeldComments {
                detached: leading_detached_comments,
                leading: leading_comment,
                trailing: trailing_comment,
            },
        )?;
        Ok(Comments { held: Some(held) })
    }

    /// The detached comments before the declaration, in order.
    pub fn leading_detached_comments(&self) -> &[Text]
        ensures { result.now ≡ self.now.leading_detached_comments }
    {
        match &self.held {
            Some(held) => held.detached.as_slice(),
            None => &[],
        }
    }

    /// The comment that leads the declaration.
    pub fn leading_comment(&self) -> Option<&Text>
        ensures { option_copied result ≡ self.now.leading_comment }
    {
        match &self.held {
            Some(held) => held.leading.as_ref(),
            None => None,
        }
    }

    /// The comment that trails the declaration. It stands after the `;` or after the `{` of the
    /// body; for a method with braces after the `}`.
    pub fn trailing_comment(&self) -> Option<&Text>
        ensures { option_copied result ≡ self.now.trailing_comment }
    {
        match &self.held {
            Some(held) => held.trailing.as_ref(),
            None => None,
        }
    }
}

fn are_equal(first: Option<&Text>, second: Option<&Text>) -> bool
    ensures { result ≡ option_eq (pointwise ◌==◌) (option_copied first.entry) (option_copied second.entry) }
{
    match (first, second) {
        (Some(first), Some(second)) => first == second,
        (None, None) => true,
        _ => false,
    }
}

impl PartialEq for Comments {
    ghost eq = { eq_of_both (on (λ c. c.leading_detached_comments) (pointwise (pointwise ◌==◌))) (eq_of_both (on (λ c. c.leading_comment) (option_eq (pointwise ◌==◌))) (on (λ c. c.trailing_comment) (option_eq (pointwise ◌==◌)))) };

    ghost laws = { Prim.search (comparing, rules) depth 12 };

    fn eq(&self, other: &Comments) -> bool {
        self.leading_detached_comments() == other.leading_detached_comments()
            && are_equal(self.leading_comment(), other.leading_comment())
            && are_equal(self.trailing_comment(), other.trailing_comment())
    }
}

impl fmt::Debug for Comments {
    fn fmt<W: fmt::Write>(&self, f: &mut fmt::Formatter<W>) -> fmt::Result {
        f.debug_struct("Comments")
            .field(
                "leading_detached_comments",
                &self.leading_detached_comments(),
            )
            .field("leading_comment", &self.leading_comment())
            .field("trailing_comment", &self.trailing_comment())
            .finish()
    }
}
