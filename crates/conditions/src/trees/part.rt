//! A part of a filter, as it was read: its condition, or an operand, and how many levels it has.

ghost use Rattle.std.specs.Prelude.{◌≡◌, IfOk};
ghost use Rattle.conditions.specs.Shapes.{shape};
ghost use Rattle.conditions.specs.Parts.{beside, joined_condition, leaf, number_if, over, parts, raised, worse};
ghost use Rattle.conditions.specs.Views.{seen_part, seen_tree};
ghost use Rattle.conditions.specs.Conditions.{Is, Not};

use crate::expression::Expression;
use crate::fault::FilterFault;
use crate::literal::Literal;
use crate::trees::joint::Joint;
use crate::trees::tightness::{IS, NOT, OPERAND};
use crate::values::is_test::IsTest;
use std::alloc::{AllocError, Global};

/// The most levels of a filter. Each operand, comparison, IS, NOT, AND, OR and pair of parentheses is one.
pub const MOST_LEVELS: usize = 64;

/// A condition of at most 64 levels.
#[derive(Drop)]
pub struct Tree {
    pub expression: Expression,
    pub levels: usize,
}

/// How tight a part binds, and its condition, or why it has none: a number of over 64 bits in it, or too many levels.
#[derive(Drop)]
pub struct Part {
    pub tightness: usize,
    pub tree: Result<Tree, FilterFault>,
}

impl Part {
    /// A column or a literal.
    pub(crate) fn leaf(expression: Expression) -> Part
        ensures { seen_part result ≡ leaf (shape expression) }
    {
        Part {
            tightness: OPERAND,
            tree: Ok(Tree {
                expression,
                levels: 1,
            }),
        }
    }

    /// An integer; None is one of over 64 bits.
    pub(crate) fn number(value: Option<i64>) -> Part
        ensures { seen_part result ≡ number_if value }
    {
        match value {
            Some(n) => Part::leaf(Expression::Literal(Literal::Number(n))),
            None => Part {
                tightness: OPERAND,
                tree: Err(FilterFault::NumberRange),
            },
        }
    }

    /// The two parts with AND, OR or a comparison between them.
    pub(crate) fn joined(
        alloc: Global,
        joint: Joint,
        left: Part,
        right: Part,
    ) -> Result<Part, AllocError>
        ensures { IfOk result
            (λ p. seen_part p ≡ parts.joined joint (seen_part left) (seen_part right)) }
    {
        Ok(Part {
            tightness: joint.tightness(),
            tree: joined_trees(alloc, joint, left.tree, right.tree)?,
        })
    }

    /// NOT before the part.
    pub(crate) fn denied(self, alloc: Global) -> Result<Part, AllocError>
        ensures { IfOk result (λ p. seen_part p ≡ parts.denied (seen_part self)) }
    {
        Ok(Part {
            tightness: NOT,
            tree: denied_tree(alloc, self.tree)?,
        })
    }

    /// IS after the part, or IS NOT, and what it asks.
    pub(crate) fn asked(
        self,
        alloc: Global,
        question: IsTest,
        is_negated: bool,
    ) -> Result<Part, AllocError>
        ensures { IfOk result
            (λ p. seen_part p ≡ parts.asked question is_negated (seen_part self)) }
    {
        Ok(Part {
            tightness: IS,
            tree: asked_tree(alloc, question, is_negated, self.tree)?,
        })
    }

    /// Parentheses round the part.
    pub(crate) fn enclosed(self) -> Part
        ensures { seen_part result ≡ parts.enclosed (seen_part self) }
    {
        Part {
            tightness: OPERAND,
            tree: enclosed_tree(self.tree),
        }
    }
}

/// One level more, over a condition of these levels.
fn raised(expression: Expression, levels: usize) -> Result<Tree, FilterFault>
    ensures { seen_tree result ≡ raised (shape expression) levels }
{
    if levels < MOST_LEVELS {
        Ok(Tree {
            expression,
            levels: levels + 1,
        })
    } else {
        Err(FilterFault::TooDeep)
    }
}

fn joined_trees(
    alloc: Global,
    joint: Joint,
    left: Result<Tree, FilterFault>,
    right: Result<Tree, FilterFault>,
) -> Result<Result<Tree, FilterFault>, AllocError>
    ensures { IfOk result
        (λ t. seen_tree t ≡ beside (joined_condition joint) (seen_tree left) (seen_tree right)) }
{
    match (left, right) {
        (Ok(a), Ok(b)) => {
            let levels = a.levels.max(b.levels);
            let joined = joined_expression(alloc, joint, a.expression, b.expression)?;
            Ok(raised(joined, levels))
        }
        (Ok(_), Err(fault)) => Ok(Err(fault)),
        (Err(fault), Ok(_)) => Ok(Err(fault)),
        (Err(fault), Err(other)) => Ok(Err(worse(fault, other))),
    }
}

fn joined_expression(
    alloc: Global,
    joint: Joint,
    left: Expression,
    right: Expression,
) -> Result<Expression, AllocError>
    ensures { IfOk result (λ e. shape e ≡ joined_condition joint (shape left) (shape right)) }
{
    let left = Box::new(alloc, left)?;
    let right = Box::new(alloc, right)?;
    Ok(match joint {
        Joint::Or => Expression::Or(left, right),
        Joint::And => Expression::And(left, right),
        Joint::Comparison(how) => Expression::Compare(how, left, right),
    })
}

fn denied_tree(
    alloc: Global,
    tree: Result<Tree, FilterFault>,
) -> Result<Result<Tree, FilterFault>, AllocError>
    ensures { IfOk result (λ t. seen_tree t ≡ over (λ c. Not c) (seen_tree tree)) }
{
    match tree {
        Ok(a) => {
            let denied = Expression::Not(Box::new(alloc, a.expression)?);
            Ok(raised(denied, a.levels))
        }
        Err(fault) => Ok(Err(fault)),
    }
}

fn asked_tree(
    alloc: Global,
    question: IsTest,
    is_negated: bool,
    tree: Result<Tree, FilterFault>,
) -> Result<Result<Tree, FilterFault>, AllocError>
    ensures { IfOk result
        (λ t. seen_tree t ≡ over (λ c. Is question is_negated c) (seen_tree tree)) }
{
    match tree {
        Ok(a) => {
            let asked = Expression::Is(question, is_negated, Box::new(alloc, a.expression)?);
            Ok(raised(asked, a.levels))
        }
        Err(fault) => Ok(Err(fault)),
    }
}

fn enclosed_tree(tree: Result<Tree, FilterFault>) -> Result<Tree, FilterFault>
    ensures { seen_tree result ≡ over (λ c. c) (seen_tree tree) }
{
    match tree {
        Ok(a) => raised(a.expression, a.levels),
        Err(fault) => Err(fault),
    }
}

/// Which of the two counts: a number of over 64 bits comes before too many levels.
fn worse(fault: FilterFault, other: FilterFault) -> FilterFault
    ensures { result ≡ worse fault other }
{
    match fault {
        FilterFault::NumberRange => FilterFault::NumberRange,
        _ => other,
    }
}
