//! The text of a tree, from its nodes in preorder.

ghost use Rattle.std.specs.Prelude.{◌≡◌, ◌+◌, ◌*◌, ◌<◌, ◌≤◌, List, [], ◌∷◌, ◌++◌, ℕ, length, IfOk, OnOk};
ghost use Rattle.adp_model.specs.PosedProblem.{IsSpan};
ghost use Rattle.adp_model.specs.Parts.{alternatives_of, alternative_at};
ghost use Rattle.adp_model.specs.Splits.{place};
ghost use Rattle.adp_model.specs.Tokens.{letters_between};
ghost use Rattle.adp_model.specs.declared.cell.Cell.{Cell};
ghost use Rattle.adp_model.specs.Derivation.{Derives};
ghost use Rattle.adp_model.specs.Tree.{Tree};
ghost use Rattle.adp_model.specs.TreeText.{tree_text};
ghost use Rattle.traceback.specs.Preorder.{nodes_of};
ghost use Rattle.report.specs.Pieces.{AreBestNodes, AreTreeNodes, IsBestText, Unwritten, Waiting, child_pieces, comma_before, head_text, piece_of, pieces_behind};

use adp_model::laws::derivation::children_are_placed;
use adp_model::laws::well_formed::arguments_are_few_and_known;
use adp_model::{Alt, Arg, Problem, push_quoted};
use std::alloc::{AllocError, Global};
use traceback::NodeAt;

/// A part of a tree's text that waits to be written.
#[derive(Clone, Copy)]
pub(crate) enum Piece {
    /// This byte.
    Mark(u8),
    /// The letters of this span, in quotes.
    Letters { from: u16, to: u16 },
    /// The tree whose nodes come next.
    Subtree,
}

// Appends the text of the preferred tree of the whole word, whose nodes these are. Takes memory as `push_nodes` does.
pub(crate) fn push_tree(
    alloc: Global,
    out: &mut Vec<u8>,
    problem: &Problem<'_>,
    nodes: &[NodeAt],
) -> Result<(), AllocError>
    requires { AreBestNodes problem.now nodes.now }
    ensures { OnOk result ((text : List ℕ) × IsBestText problem.now text × (out.new.items ≡ out.old.items ++ text)) }
{
    push_nodes(alloc, out, problem, nodes)
}

/// Appends the text of the tree of a cell whose nodes these are, in preorder. Takes memory for the text, and for at
/// most eight pieces a node on the way down.
///
/// # Errors
///
/// Where there is no memory.
pub fn push_nodes(
    alloc: Global,
    out: &mut Vec<u8>,
    problem: &Problem<'_>,
    nodes: &[NodeAt],
) -> Result<(), AllocError>
    requires { AreTreeNodes problem.now nodes.now }
    ensures { OnOk result ((cell : Cell) (tree : Tree) → Derives problem.now cell tree → nodes.now ≡ nodes_of tree
        → out.new.items ≡ out.old.items ++ tree_text problem.now tree) }
{
    let mut pieces = vec![in alloc; Piece::Subtree]?;
    let mut rest = nodes;
    while let Some(piece) = pieces.pop() {
        rest = push_piece(out, &mut pieces, problem, piece, rest)?;
    }
    Ok(())
}

// Writes the piece that stood on top of the others, and gives the nodes that are left. Of a subtree it writes the head,
// and puts what is behind it on the stack.
fn push_piece<'a>(
    out: &mut Vec<u8>,
    pieces: &mut Vec<Piece>,
    problem: &Problem<'_>,
    piece: Piece,
    nodes: &'a [NodeAt],
) -> Result<&'a [NodeAt], AllocError>
    requires { (text : List ℕ) × Waiting problem.now (pieces.old.items ++ piece ∷ []) nodes.now text }
    ensures same { IfOk result (λ rest. (whole : List ℕ)
        → Unwritten problem.now out.old.items (pieces.old.items ++ piece ∷ []) nodes.now whole
        → Unwritten problem.now out.new.items pieces.new.items rest.now whole) }
    ensures fewer { IfOk result (λ rest. 8 * length rest.now + length pieces.new.items
        ≤ 8 * length nodes.now + length pieces.old.items) }
{
    problem.admissible();
    arguments_are_few_and_known();
    children_are_placed();
    match piece {
        Piece::Mark(byte) => {
            out.push(byte)?;
            Ok(nodes)
        }
        Piece::Letters { from, to } => {
            push_quoted(out, letters(problem, from, to))?;
            Ok(nodes)
        }
        Piece::Subtree => match nodes {
            [] => unreachable!(),
            [node, others @ ..] => {
                push_head(out, problem, node)?;
                push_behind(pieces, problem, node)?;
                Ok(others)
            }
        },
    }
}

// The letters of a span of the word.
fn letters<'a>(problem: &Problem<'a>, from: u16, to: u16) -> &'a [u8]
    requires { IsSpan problem.now.word from to }
    ensures { result.now ≡ letters_between problem.now.word from to }
{
    &problem.word.bytes()[from as usize..to as usize]
}

// Appends the name of the node's sign, and a bracket.
fn push_head(out: &mut Vec<u8>, problem: &Problem<'_>, node: &NodeAt) -> Result<(), AllocError>
    requires { node.now.choice.alt < length (alternatives_of problem.now.grammar node.now.cell.rule) }
    ensures { OnOk result (out.new.items ≡ out.old.items ++ head_text problem.now node.now) }
{
    let alternative = alternative(problem, node);
    if let Some(sign) = problem
        .grammar
        .signs
        .as_slice()
        .get(alternative.sign as usize)
    {
        out.extend_from_slice(sign.name.bytes())?;
    }
    out.push(b'(')?;
    Ok(())
}

// Puts what is behind the head of the node on the stack.
fn push_behind(
    pieces: &mut Vec<Piece>,
    problem: &Problem<'_>,
    node: &NodeAt,
) -> Result<(), AllocError>
    requires { node.now.choice.alt < length (alternatives_of problem.now.grammar node.now.cell.rule) }
    ensures { OnOk result (pieces.new.items ≡ pieces.old.items ++ pieces_behind problem.now node.now) }
{
    let [first, second, third] = node.choice.cuts;
    let ends = [first, second, third, node.cell.to];
    pieces.push(Piece::Mark(b')'))?;
    push_children(
        pieces,
        alternative(problem, node).args.as_slice(),
        node.cell.from,
        &ends,
    )
}

// Puts children on the stack, with a comma between two, the first on top. There are at most four.
fn push_children(
    pieces: &mut Vec<Piece>,
    arguments: &[Arg],
    from: u16,
    ends: &[u16],
) -> Result<(), AllocError>
    ensures { OnOk result (pieces.new.items ≡ pieces.old.items ++ child_pieces (place arguments.now from ends.now)) }
{
    match (arguments, ends) {
        ([], _) => Ok(()),
        (_, []) => Ok(()),
        ([argument, arguments @ ..], [to, ends @ ..]) => {
            push_children(pieces, arguments, *to, ends)?;
            push_comma(pieces, arguments, ends)?;
            pieces.push(waiting_child(argument, from, *to))?;
            Ok(())
        }
    }
}

// Puts a comma on the stack where there are further children.
fn push_comma(pieces: &mut Vec<Piece>, arguments: &[Arg], ends: &[u16]) -> Result<(), AllocError>
    ensures { OnOk result ((from : ℕ)
        → pieces.new.items ≡ pieces.old.items ++ comma_before (place arguments.now from ends.now)) }
{
    let further = arguments.len().min(ends.len());
    if further == 0 {
        return Ok(());
    }
    pieces.push(Piece::Mark(b','))?;
    Ok(())
}

// What an argument on a span waits as.
fn waiting_child(argument: &Arg, from: u16, to: u16) -> Piece
    ensures { result ≡ piece_of (record { argument = argument.now; from = from; to = to }) }
{
    match argument {
        Arg::Rule(_) => Piece::Subtree,
        Arg::Literal(_) | Arg::Letter(_) | Arg::Run { .. } => Piece::Letters { from, to },
    }
}

// The node's alternative.
fn alternative<'a>(problem: &Problem<'a>, node: &NodeAt) -> &'a Alt
    requires { node.now.choice.alt < length (alternatives_of problem.now.grammar node.now.cell.rule) }
    ensures { result.now ≡ alternative_at problem.now.grammar node.now.cell.rule node.now.choice.alt }
{
    let rule = &problem.grammar.rules.as_slice()[node.cell.rule as usize];
    &rule.alts.as_slice()[node.choice.alt as usize]
}
