// Reads expressions by precedence. What comes next tells each choice, so nothing is read twice, and each bracket that
// opens takes one of the room that is left.
ghost use Rattle.std.specs.Prelude.{◌≡◌, ◌<◌, ◌≤◌, ◌+◌, ◌-◌, [], IfOk, Some, None, IsSome, length, map, option_map, codes};
ghost use Rattle.py_tree.specs.Seen.{tree, link_tree, pair_tree, each_of, trailer_of, argument_of};
ghost use Rattle.py_grammar.specs.Seen.{seen, and_one, is_target, index_seen, rest_depth};
ghost use Rattle.py_words.specs.Phrases.{seen_of, deep_of, listed_of, rest_of};
ghost use Rattle.py_grammar.specs.Readers.{Reads, many, made, maybe, sign, ◌▹◌};
ghost use Rattle.py_grammar.specs.Words.{next_sign};
ghost use Rattle.std.specs.Option.{ForSome};
ghost use Rattle.py_grammar.specs.declared.word.Kind.TheVariants.{Expr as expr_kind};
ghost use Rattle.py_grammar.specs.Seen.{after_comma};
ghost use Rattle.py_grammar.specs.Reading.{inner, target, unary, power, awaited, negated, either, expr, operand, chain, link, is_operator, primary, trail, trails, atom, number, bracketed, round, square, curly, items, others, more_of, plain_of, comp, if_part, pair, arg, args, index, perhaps_expr, step, call, begins, begins_argument, comma_then};

use py_grammar::{Kind, Mark, Stop, Word};
use py_tree::{Argument, Comprehension, Expr, ExprKind, Link, Pair, Trailer};
use py_words::node;
use py_words::operator::{operator_next, take_operator};
use py_words::phrase::{Deep, Listed, Phrase, Rest};
use py_words::take::{
    argument_next, begins_next, comma_argument, comma_begins, constant, key_next, named_next,
    sign_next, take_amount, take_comma, take_key, take_name, take_number, take_sign, take_unary,
    trail_next, unary_next,
};
use py_words::target::is_target;
use std::alloc::Global;

/// What one of the rules reads inside a bracket.
#[cycle(read)]
#[tactic(auto, using(crate::proofs::Loops::inners))]
pub fn read_inner(
    alloc: Global,
    words: &[Word],
    kind: Kind,
    room: u32,
) -> Result<(Phrase, &[Word]), Stop>
    ensures reads { Reads (λ x. (seen_of x.0, x.1.now)) result (inner room kind words.now) }
    ensures shorter { IfOk result (λ x. length x.1.now < length words.now) }
    ensures shallow { IfOk result (λ x. x.0.depth < room) }
{
    if room == 0 {
        return Err(Stop::Unread);
    }
    let room = room - 1;
    match kind {
        Kind::Target => read_target(alloc, words, room),
        Kind::Unary => read_unary(alloc, words, room),
        Kind::Not => read_negated(alloc, words, room),
        Kind::Or => read_either(alloc, words, room),
        Kind::Expr => read_expr(alloc, words, room),
    }
}

#[cycle(read)]
#[tactic(auto, unfolding(py_grammar::specs::Reading::target))]
fn read_target(alloc: Global, words: &[Word], room: u32) -> Result<(Phrase, &[Word]), Stop>
    ensures reads { Reads (λ x. (seen_of x.0, x.1.now)) result (target (inner room) words.now) }
    ensures shorter { IfOk result (λ x. length x.1.now < length words.now) }
    ensures shallow { IfOk result (λ x. x.0.depth ≤ room) }
{
    let (target, rest) = read_primary(alloc, words, room)?;
    if is_target(&target.expr) {
        Ok((target, rest))
    } else {
        Err(Stop::Unread)
    }
}

#[cycle(read)]
#[tactic(auto, unfolding(py_grammar::specs::Reading::expr))]
fn read_expr(alloc: Global, words: &[Word], room: u32) -> Result<(Phrase, &[Word]), Stop>
    ensures reads { Reads (λ x. (seen_of x.0, x.1.now)) result (expr (inner room) room words.now) }
    ensures shorter { IfOk result (λ x. length x.1.now < length words.now) }
    ensures shallow { IfOk result (λ x. x.0.depth ≤ room) }
{
    let (chosen, rest) = read_either(alloc, words, room)?;
    if !key_next(rest, "if") {
        return Ok((chosen, rest));
    }
    let (_, rest) = take_key(rest, "if")?;
    let (test, rest) = read_inner(alloc, rest, Kind::Or, room)?;
    let (_, rest) = take_key(rest, "else")?;
    let (other, rest) = read_inner(alloc, rest, Kind::Expr, room)?;
    if chosen.depth >= room {
        return Err(Stop::Unread);
    }
    Ok((node::choice(alloc, chosen, test, other)?, rest))
}

#[cycle(read)]
#[tactic(auto, unfolding(py_grammar::specs::Reading::either))]
fn read_either(alloc: Global, words: &[Word], room: u32) -> Result<(Phrase, &[Word]), Stop>
    ensures reads { Reads (λ x. (seen_of x.0, x.1.now)) result (either (inner room) room words.now) }
    ensures shorter { IfOk result (λ x. length x.1.now < length words.now) }
    ensures shallow { IfOk result (λ x. x.0.depth ≤ room) }
{
    read_chain(alloc, words, 8, room)
}

/// Operands with an operator of level `k` between each two.
#[cycle(read)]
#[tactic(auto, unfolding(py_grammar::specs::Reading::chain))]
fn read_chain(alloc: Global, words: &[Word], k: u8, room: u32) -> Result<(Phrase, &[Word]), Stop>
    requires { k ≤ 8 }
    ensures reads { Reads (λ x. (seen_of x.0, x.1.now)) result (chain k (operand (inner room) room k) words.now) }
    ensures shorter { IfOk result (λ x. length x.1.now < length words.now) }
    ensures shallow { IfOk result (λ x. x.0.depth ≤ room) }
{
    let (first, rest) = read_operand(alloc, words, k, room)?;
    let (links, rest) = read_links(alloc, rest, k, room)?;
    Ok((node::chain(alloc, k, first, links)?, rest))
}

#[cycle(read)]
#[tactic(auto, using(crate::proofs::Loops::operands))]
fn read_operand(alloc: Global, words: &[Word], k: u8, room: u32) -> Result<(Phrase, &[Word]), Stop>
    requires { k ≤ 8 }
    ensures reads { Reads (λ x. (seen_of x.0, x.1.now)) result (operand (inner room) room k words.now) }
    ensures shorter { IfOk result (λ x. length x.1.now < length words.now) }
    ensures shallow { IfOk result (λ x. x.0.depth ≤ room) }
{
    if k == 0 {
        return read_unary(alloc, words, room);
    }
    if k == 7 {
        return read_negated(alloc, words, room);
    }
    read_chain(alloc, words, k - 1, room)
}

#[cycle(read)]
#[tactic(auto, using(crate::proofs::Loops::repeats), unfolding(py_grammar::specs::Reading::link))]
fn read_links(
    alloc: Global,
    words: &[Word],
    k: u8,
    room: u32,
) -> Result<(Deep<Vec<Link>>, &[Word]), Stop>
    requires { k ≤ 8 }
    ensures reads { Reads (λ x. ((map link_tree x.0.item.items, x.0.depth), x.1.now)) result (many (is_operator k) (link k (operand (inner room) room k)) and_one ([], 0) words.now) }
    ensures shorter { IfOk result (λ x. length x.1.now ≤ length words.now) }
    ensures shallow { IfOk result (λ x. x.0.depth ≤ room) }
{
    let mut item = Vec::new(alloc);
    let mut depth = 0u32;
    let mut rest = words;
    for _turn in 0..words.len() {
        if !operator_next(rest, k) {
            return Ok((Deep { item, depth }, rest));
        }
        let (operator, after) = take_operator(rest, k)?;
        let (operand, after) = read_operand(alloc, after, k, room)?;
        depth = depth.max(operand.depth);
        item.push(node::link(operator, operand.expr))?;
        rest = after;
    }
    Ok((Deep { item, depth }, rest))
}

#[cycle(read)]
#[tactic(auto, using(crate::proofs::Loops::operand_six), unfolding(py_grammar::specs::Reading::negated))]
fn read_negated(alloc: Global, words: &[Word], room: u32) -> Result<(Phrase, &[Word]), Stop>
    ensures reads { Reads (λ x. (seen_of x.0, x.1.now)) result (negated (inner room) room words.now) }
    ensures shorter { IfOk result (λ x. length x.1.now < length words.now) }
    ensures shallow { IfOk result (λ x. x.0.depth ≤ room) }
{
    if !key_next(words, "not") {
        return read_chain(alloc, words, 6, room);
    }
    let (place, rest) = take_key(words, "not")?;
    let (e, rest) = read_inner(alloc, rest, Kind::Not, room)?;
    Ok((
        node::over_one(alloc, place, ExprKind::Not(e.expr), e.depth)?,
        rest,
    ))
}

#[cycle(read)]
#[tactic(auto, unfolding(py_grammar::specs::Reading::unary))]
fn read_unary(alloc: Global, words: &[Word], room: u32) -> Result<(Phrase, &[Word]), Stop>
    ensures reads { Reads (λ x. (seen_of x.0, x.1.now)) result (unary (inner room) room words.now) }
    ensures shorter { IfOk result (λ x. length x.1.now < length words.now) }
    ensures shallow { IfOk result (λ x. x.0.depth ≤ room) }
{
    if !unary_next(words) {
        return read_power(alloc, words, room);
    }
    let ((place, sign), rest) = take_unary(words)?;
    let (e, rest) = read_inner(alloc, rest, Kind::Unary, room)?;
    Ok((
        node::over_one(alloc, place, ExprKind::Unary(sign, e.expr), e.depth)?,
        rest,
    ))
}

#[cycle(read)]
#[tactic(auto, unfolding(py_grammar::specs::Reading::power))]
fn read_power(alloc: Global, words: &[Word], room: u32) -> Result<(Phrase, &[Word]), Stop>
    ensures reads { Reads (λ x. (seen_of x.0, x.1.now)) result (power (inner room) room words.now) }
    ensures shorter { IfOk result (λ x. length x.1.now < length words.now) }
    ensures shallow { IfOk result (λ x. x.0.depth ≤ room) }
{
    let (base, rest) = read_awaited(alloc, words, room)?;
    if !sign_next(rest, "**") {
        return Ok((base, rest));
    }
    let (_, rest) = take_sign(rest, "**")?;
    let (exponent, rest) = read_inner(alloc, rest, Kind::Unary, room)?;
    if base.depth >= room {
        return Err(Stop::Unread);
    }
    Ok((node::power(alloc, base, exponent)?, rest))
}

#[cycle(read)]
#[tactic(auto, unfolding(py_grammar::specs::Reading::awaited))]
fn read_awaited(alloc: Global, words: &[Word], room: u32) -> Result<(Phrase, &[Word]), Stop>
    ensures reads { Reads (λ x. (seen_of x.0, x.1.now)) result (awaited (inner room) words.now) }
    ensures shorter { IfOk result (λ x. length x.1.now < length words.now) }
    ensures shallow { IfOk result (λ x. x.0.depth ≤ room) }
{
    if !key_next(words, "await") {
        return read_primary(alloc, words, room);
    }
    let (place, rest) = take_key(words, "await")?;
    let (e, rest) = read_primary(alloc, rest, room)?;
    Ok((node::awaited(alloc, place, e)?, rest))
}

#[cycle(read)]
#[tactic(auto, unfolding(py_grammar::specs::Reading::primary))]
fn read_primary(alloc: Global, words: &[Word], room: u32) -> Result<(Phrase, &[Word]), Stop>
    ensures reads { Reads (λ x. (seen_of x.0, x.1.now)) result (primary (inner room) words.now) }
    ensures shorter { IfOk result (λ x. length x.1.now < length words.now) }
    ensures shallow { IfOk result (λ x. x.0.depth ≤ room) }
{
    let (first, rest) = read_atom(alloc, words, room)?;
    let (trailers, rest) = read_trails(alloc, rest, room)?;
    Ok((node::primary(alloc, first, trailers)?, rest))
}

#[cycle(read)]
#[tactic(auto, using(crate::proofs::Loops::repeats))]
fn read_trails(
    alloc: Global,
    words: &[Word],
    room: u32,
) -> Result<(Deep<Vec<Trailer>>, &[Word]), Stop>
    ensures reads { Reads (λ x. ((map trailer_of x.0.item.items, x.0.depth), x.1.now)) result (many trails (trail (inner room)) and_one ([], 0) words.now) }
    ensures shorter { IfOk result (λ x. length x.1.now ≤ length words.now) }
    ensures shallow { IfOk result (λ x. x.0.depth ≤ room) }
{
    let mut item = Vec::new(alloc);
    let mut depth = 0u32;
    let mut rest = words;
    for _turn in 0..words.len() {
        if !trail_next(rest) {
            return Ok((Deep { item, depth }, rest));
        }
        let (trailer, after) = read_trail(alloc, rest, room)?;
        depth = depth.max(trailer.depth);
        item.push(trailer.item)?;
        rest = after;
    }
    Ok((Deep { item, depth }, rest))
}

#[cycle(read)]
#[tactic(auto, unfolding(py_grammar::specs::Reading::trail, py_grammar::specs::Reading::indexed))]
fn read_trail(alloc: Global, words: &[Word], room: u32) -> Result<(Deep<Trailer>, &[Word]), Stop>
    ensures reads { Reads (λ x. (deep_of trailer_of x.0, x.1.now)) result (trail (inner room) words.now) }
    ensures shorter { IfOk result (λ x. length x.1.now < length words.now) }
    ensures shallow { IfOk result (λ x. x.0.depth ≤ room) }
{
    if sign_next(words, ".") {
        let (_, rest) = take_sign(words, ".")?;
        let ((_, name), rest) = take_name(rest)?;
        let item = Trailer::Attribute(name);
        return Ok((Deep { item, depth: 0 }, rest));
    }
    if sign_next(words, "(") {
        return read_call(alloc, words, room);
    }
    let (_, rest) = take_sign(words, "[")?;
    let (index, rest) = read_index(alloc, rest, room)?;
    match take_sign(rest, "]") {
        Ok((_, rest)) => Ok((index, rest)),
        Err(stop) => {
            drop(index);
            Err(stop)
        }
    }
}

/// Arguments in round brackets.
#[cycle(read)]
#[tactic(auto, unfolding(py_grammar::specs::Reading::call, py_grammar::specs::Reading::args))]
pub fn read_call(alloc: Global, words: &[Word], room: u32) -> Result<(Deep<Trailer>, &[Word]), Stop>
    ensures reads { Reads (λ x. (deep_of trailer_of x.0, x.1.now)) result (call (inner room) words.now) }
    ensures shorter { IfOk result (λ x. length x.1.now < length words.now) }
    ensures shallow { IfOk result (λ x. x.0.depth ≤ room) }
{
    let (_, rest) = take_sign(words, "(")?;
    if sign_next(rest, ")") {
        let (_, rest) = take_sign(rest, ")")?;
        let item = Trailer::Call(Vec::new(alloc));
        return Ok((Deep { item, depth: 0 }, rest));
    }
    let (first, rest) = read_argument(alloc, rest, room)?;
    let (others, rest) = match read_other_arguments(alloc, rest, room) {
        Ok(read) => read,
        Err(stop) => {
            drop(first);
            return Err(stop);
        }
    };
    let call = node::call(first, others)?;
    match take_sign(rest, ")") {
        Ok((_, rest)) => Ok((call, rest)),
        Err(stop) => {
            drop(call);
            Err(stop)
        }
    }
}

#[cycle(read)]
#[tactic(auto, unfolding(py_grammar::specs::Reading::arg))]
fn read_argument(
    alloc: Global,
    words: &[Word],
    room: u32,
) -> Result<(Deep<Argument>, &[Word]), Stop>
    ensures reads { Reads (λ x. (deep_of argument_of x.0, x.1.now)) result (arg (inner room) words.now) }
    ensures shorter { IfOk result (λ x. length x.1.now < length words.now) }
    ensures shallow { IfOk result (λ x. x.0.depth < room) }
{
    if sign_next(words, "*") {
        let (_, rest) = take_sign(words, "*")?;
        let (e, rest) = read_inner(alloc, rest, Kind::Expr, room)?;
        let item = Argument::Starred(e.expr);
        return Ok((
            Deep {
                item,
                depth: e.depth,
            },
            rest,
        ));
    }
    if named_next(words) {
        let ((_, name), rest) = take_name(words)?;
        let (_, rest) = take_sign(rest, "=")?;
        let (e, rest) = read_inner(alloc, rest, Kind::Expr, room)?;
        let item = Argument::Keyword(name, e.expr);
        return Ok((
            Deep {
                item,
                depth: e.depth,
            },
            rest,
        ));
    }
    let (e, rest) = read_inner(alloc, words, Kind::Expr, room)?;
    let item = Argument::Positional(e.expr);
    Ok((
        Deep {
            item,
            depth: e.depth,
        },
        rest,
    ))
}

#[cycle(read)]
#[tactic(auto, unfolding(py_grammar::specs::Reading::others))]
fn read_other_arguments(
    alloc: Global,
    words: &[Word],
    room: u32,
) -> Result<(Rest<Argument>, &[Word]), Stop>
    ensures reads { Reads (λ x. (rest_of argument_of x.0, x.1.now)) result (others (inner room) begins_argument (arg (inner room)) words.now) }
    ensures shorter { IfOk result (λ x. length x.1.now ≤ length words.now) }
    ensures shallow { IfOk result (λ x. rest_depth (rest_of argument_of x.0) ≤ room - 1) }
{
    if key_next(words, "for") {
        let (each, rest) = read_comp(alloc, words, room)?;
        return Ok((Rest::Over(each), rest));
    }
    let (run, rest) = read_arguments(alloc, words, room)?;
    let (comma, rest) = take_comma(rest)?;
    let listed = Listed {
        items: run.item,
        depth: run.depth,
        comma,
    };
    Ok((Rest::More(listed), rest))
}

#[cycle(read)]
#[tactic(auto, using(crate::proofs::Loops::repeats))]
fn read_arguments(
    alloc: Global,
    words: &[Word],
    room: u32,
) -> Result<(Deep<Vec<Argument>>, &[Word]), Stop>
    ensures reads { Reads (λ x. ((map argument_of x.0.item.items, x.0.depth), x.1.now)) result (many (comma_then begins_argument) (made after_comma (sign (codes ",") ▹ arg (inner room))) and_one ([], 0) words.now) }
    ensures shorter { IfOk result (λ x. length x.1.now ≤ length words.now) }
    ensures shallow { IfOk result (λ x. x.0.depth ≤ room - 1) }
{
    let mut item = Vec::new(alloc);
    let mut depth = 0u32;
    let mut rest = words;
    for _turn in 0..words.len() {
        if !comma_argument(rest) {
            return Ok((Deep { item, depth }, rest));
        }
        let (_, after) = take_sign(rest, ",")?;
        let (next, after) = read_argument(alloc, after, room)?;
        depth = depth.max(next.depth);
        item.push(next.item)?;
        rest = after;
    }
    Ok((Deep { item, depth }, rest))
}

#[cycle(read)]
#[tactic(auto, using(crate::proofs::Loops::repeats))]
fn read_exprs(
    alloc: Global,
    words: &[Word],
    kind: Kind,
    room: u32,
) -> Result<(Deep<Vec<Expr>>, &[Word]), Stop>
    ensures reads { Reads (λ x. ((map tree x.0.item.items, x.0.depth), x.1.now)) result (many (comma_then begins) (made after_comma (sign (codes ",") ▹ plain_of (inner room kind))) and_one ([], 0) words.now) }
    ensures shorter { IfOk result (λ x. length x.1.now ≤ length words.now) }
    ensures shallow { IfOk result (λ x. x.0.depth ≤ room - 1) }
{
    let mut item = Vec::new(alloc);
    let mut depth = 0u32;
    let mut rest = words;
    for _turn in 0..words.len() {
        if !comma_begins(rest) {
            return Ok((Deep { item, depth }, rest));
        }
        let (_, after) = take_sign(rest, ",")?;
        let (next, after) = read_inner(alloc, after, kind, room)?;
        depth = depth.max(next.depth);
        item.push(next.expr)?;
        rest = after;
    }
    Ok((Deep { item, depth }, rest))
}

#[cycle(read)]
#[tactic(auto, unfolding(py_grammar::specs::Reading::others))]
fn read_other_exprs(alloc: Global, words: &[Word], room: u32) -> Result<(Rest<Expr>, &[Word]), Stop>
    ensures reads { Reads (λ x. (rest_of tree x.0, x.1.now)) result (others (inner room) begins (plain_of (inner room expr_kind)) words.now) }
    ensures shorter { IfOk result (λ x. length x.1.now ≤ length words.now) }
    ensures shallow { IfOk result (λ x. rest_depth (rest_of tree x.0) ≤ room - 1) }
{
    if key_next(words, "for") {
        let (each, rest) = read_comp(alloc, words, room)?;
        return Ok((Rest::Over(each), rest));
    }
    let (run, rest) = read_exprs(alloc, words, Kind::Expr, room)?;
    let (comma, rest) = take_comma(rest)?;
    let listed = Listed {
        items: run.item,
        depth: run.depth,
        comma,
    };
    Ok((Rest::More(listed), rest))
}

/// Expressions, or targets, with a comma between each two.
#[cycle(read)]
#[tactic(auto, unfolding(py_grammar::specs::Reading::items))]
pub fn read_items(
    alloc: Global,
    words: &[Word],
    kind: Kind,
    room: u32,
) -> Result<(Phrase, Listed<Expr>, &[Word]), Stop>
    ensures reads { Reads (λ x. ((seen_of x.0, listed_of tree x.1), x.2.now)) result (items (inner room kind) words.now) }
    ensures shorter { IfOk result (λ x. length x.2.now < length words.now) }
    ensures first_shallow { IfOk result (λ x. x.0.depth < room) }
    ensures shallow { IfOk result (λ x. x.1.depth ≤ room - 1) }
{
    let (first, rest) = read_inner(alloc, words, kind, room)?;
    let (run, rest) = read_exprs(alloc, rest, kind, room)?;
    let (comma, rest) = take_comma(rest)?;
    let listed = Listed {
        items: run.item,
        depth: run.depth,
        comma,
    };
    Ok((first, listed, rest))
}

#[cycle(read)]
#[tactic(auto, unfolding(py_grammar::specs::Reading::comp))]
fn read_comp(
    alloc: Global,
    words: &[Word],
    room: u32,
) -> Result<(Deep<Comprehension>, &[Word]), Stop>
    ensures reads { Reads (λ x. (deep_of each_of x.0, x.1.now)) result (comp (inner room) words.now) }
    ensures shorter { IfOk result (λ x. length x.1.now < length words.now) }
    ensures shallow { IfOk result (λ x. x.0.depth ≤ room - 1) }
{
    let (_, rest) = take_key(words, "for")?;
    let (first, others, rest) = read_items(alloc, rest, Kind::Target, room)?;
    let targets = node::tuple(alloc, first, others)?;
    let (_, rest) = take_key(rest, "in")?;
    let (source, rest) = read_inner(alloc, rest, Kind::Or, room)?;
    if !key_next(rest, "if") {
        return Ok((node::each(targets, source, None), rest));
    }
    let (_, rest) = take_key(rest, "if")?;
    let (condition, rest) = read_inner(alloc, rest, Kind::Or, room)?;
    Ok((node::each(targets, source, Some(condition)), rest))
}

#[cycle(read)]
#[tactic(auto, unfolding(py_grammar::specs::Reading::pair))]
fn read_pair(alloc: Global, words: &[Word], room: u32) -> Result<(Deep<Pair>, &[Word]), Stop>
    ensures reads { Reads (λ x. (deep_of pair_tree x.0, x.1.now)) result (pair (inner room) words.now) }
    ensures shorter { IfOk result (λ x. length x.1.now < length words.now) }
    ensures shallow { IfOk result (λ x. x.0.depth < room) }
{
    let (key, rest) = read_inner(alloc, words, Kind::Expr, room)?;
    let (_, rest) = take_sign(rest, ":")?;
    let (value, rest) = read_inner(alloc, rest, Kind::Expr, room)?;
    let depth = key.depth.max(value.depth);
    let item = Pair {
        key: key.expr,
        value: value.expr,
    };
    Ok((Deep { item, depth }, rest))
}

#[cycle(read)]
#[tactic(auto, using(crate::proofs::Loops::repeats))]
fn read_pairs(alloc: Global, words: &[Word], room: u32) -> Result<(Deep<Vec<Pair>>, &[Word]), Stop>
    ensures reads { Reads (λ x. ((map pair_tree x.0.item.items, x.0.depth), x.1.now)) result (many (comma_then begins) (made after_comma (sign (codes ",") ▹ pair (inner room))) and_one ([], 0) words.now) }
    ensures shorter { IfOk result (λ x. length x.1.now ≤ length words.now) }
    ensures shallow { IfOk result (λ x. x.0.depth ≤ room - 1) }
{
    let mut item = Vec::new(alloc);
    let mut depth = 0u32;
    let mut rest = words;
    for _turn in 0..words.len() {
        if !comma_begins(rest) {
            return Ok((Deep { item, depth }, rest));
        }
        let (_, after) = take_sign(rest, ",")?;
        let (next, after) = read_pair(alloc, after, room)?;
        depth = depth.max(next.depth);
        item.push(next.item)?;
        rest = after;
    }
    Ok((Deep { item, depth }, rest))
}

#[cycle(read)]
#[tactic(auto, unfolding(py_grammar::specs::Reading::others))]
fn read_other_pairs(alloc: Global, words: &[Word], room: u32) -> Result<(Rest<Pair>, &[Word]), Stop>
    ensures reads { Reads (λ x. (rest_of pair_tree x.0, x.1.now)) result (others (inner room) begins (pair (inner room)) words.now) }
    ensures shorter { IfOk result (λ x. length x.1.now ≤ length words.now) }
    ensures shallow { IfOk result (λ x. rest_depth (rest_of pair_tree x.0) ≤ room - 1) }
{
    if key_next(words, "for") {
        let (each, rest) = read_comp(alloc, words, room)?;
        return Ok((Rest::Over(each), rest));
    }
    let (run, rest) = read_pairs(alloc, words, room)?;
    let (comma, rest) = take_comma(rest)?;
    let listed = Listed {
        items: run.item,
        depth: run.depth,
        comma,
    };
    Ok((Rest::More(listed), rest))
}

/// An expression of an index, which may be left out.
#[cycle(read)]
#[tactic(auto, unfolding(py_grammar::specs::Reading::perhaps_expr))]
fn read_part(alloc: Global, words: &[Word], room: u32) -> Result<(Option<Phrase>, &[Word]), Stop>
    ensures reads { Reads (λ x. (option_map seen_of x.0, x.1.now)) result (perhaps_expr (inner room) words.now) }
    ensures shorter { IfOk result (λ x. length x.1.now ≤ length words.now) }
    ensures taken { IfOk result (λ x. IsSome x.0 → length x.1.now < length words.now) }
    ensures shallow { IfOk result (λ x. ForSome x.0 (λ e. e.depth < room)) }
{
    if !begins_next(words) {
        return Ok((None, words));
    }
    let (e, rest) = read_inner(alloc, words, Kind::Expr, room)?;
    Ok((Some(e), rest))
}

#[cycle(read)]
#[tactic(auto, unfolding(py_grammar::specs::Reading::index))]
fn read_index(alloc: Global, words: &[Word], room: u32) -> Result<(Deep<Trailer>, &[Word]), Stop>
    ensures reads { Reads (λ x. (deep_of trailer_of x.0, x.1.now)) result (index (inner room) words.now) }
    ensures shorter { IfOk result (λ x. length x.1.now < length words.now) }
    ensures shallow { IfOk result (λ x. x.0.depth ≤ room) }
{
    let (start, rest) = read_part(alloc, words, room)?;
    if !sign_next(rest, ":") {
        let Some(e) = start else {
            return Err(Stop::Unread);
        };
        let item = Trailer::Index(e.expr);
        let depth = e.depth + 1;
        return Ok((Deep { item, depth }, rest));
    }
    let (_, rest) = take_sign(rest, ":")?;
    let (stop, rest) = read_part(alloc, rest, room)?;
    if !sign_next(rest, ":") {
        return Ok((node::slice(start, stop, None), rest));
    }
    let (_, rest) = take_sign(rest, ":")?;
    let (step, rest) = read_part(alloc, rest, room)?;
    Ok((node::slice(start, stop, step), rest))
}

#[cycle(read)]
#[tactic(auto, unfolding(py_grammar::specs::Reading::atom))]
fn read_atom(alloc: Global, words: &[Word], room: u32) -> Result<(Phrase, &[Word]), Stop>
    ensures reads { Reads (λ x. (seen_of x.0, x.1.now)) result (atom (inner room) words.now) }
    ensures shorter { IfOk result (λ x. length x.1.now < length words.now) }
    ensures shallow { IfOk result (λ x. x.0.depth ≤ room) }
{
    let [word, rest @ ..] = words else {
        return Err(Stop::Unread);
    };
    let place = word.place;
    let kind = match &word.mark {
        Mark::Name(text) => ExprKind::Name(text.share()?),
        Mark::Number(_) => return read_number(alloc, words),
        Mark::Decimal(d) => ExprKind::Decimal(*d),
        Mark::Str(text) => ExprKind::Str(text.share()?),
        Mark::Format(pieces) => ExprKind::Format(pieces.share()?),
        Mark::Keyword(text) => match constant(text) {
            Some(c) => ExprKind::Constant(c),
            None => return Err(Stop::Unread),
        },
        Mark::Sign(_) => return read_bracketed(alloc, words, room),
        Mark::Other => return Err(Stop::Unread),
    };
    Ok((node::leaf(alloc, place, kind)?, rest))
}

#[cycle(read)]
#[tactic(auto, unfolding(py_grammar::specs::Reading::bracketed))]
fn read_bracketed(alloc: Global, words: &[Word], room: u32) -> Result<(Phrase, &[Word]), Stop>
    ensures reads { Reads (λ x. (seen_of x.0, x.1.now)) result (bracketed (inner room) words.now) }
    ensures shorter { IfOk result (λ x. length x.1.now < length words.now) }
    ensures shallow { IfOk result (λ x. x.0.depth ≤ room) }
{
    if sign_next(words, "(") {
        return read_round(alloc, words, room);
    }
    if sign_next(words, "[") {
        return read_square(alloc, words, room);
    }
    read_curly(alloc, words, room)
}

#[cycle(read)]
#[tactic(auto, unfolding(py_grammar::specs::Reading::round))]
fn read_round(alloc: Global, words: &[Word], room: u32) -> Result<(Phrase, &[Word]), Stop>
    ensures reads { Reads (λ x. (seen_of x.0, x.1.now)) result (round (inner room) words.now) }
    ensures shorter { IfOk result (λ x. length x.1.now < length words.now) }
    ensures shallow { IfOk result (λ x. x.0.depth ≤ room) }
{
    let (place, rest) = take_sign(words, "(")?;
    if sign_next(rest, ")") {
        let (_, rest) = take_sign(rest, ")")?;
        return Ok((
            node::leaf(alloc, place, ExprKind::Tuple(Vec::new(alloc)))?,
            rest,
        ));
    }
    let (first, others, rest) = read_items(alloc, rest, Kind::Expr, room)?;
    let (_, rest) = take_sign(rest, ")")?;
    Ok((node::round(alloc, place, first, others)?, rest))
}

#[cycle(read)]
#[tactic(auto, unfolding(py_grammar::specs::Reading::square))]
fn read_square(alloc: Global, words: &[Word], room: u32) -> Result<(Phrase, &[Word]), Stop>
    ensures reads { Reads (λ x. (seen_of x.0, x.1.now)) result (square (inner room) words.now) }
    ensures shorter { IfOk result (λ x. length x.1.now < length words.now) }
    ensures shallow { IfOk result (λ x. x.0.depth ≤ room) }
{
    let (place, rest) = take_sign(words, "[")?;
    if sign_next(rest, "]") {
        let (_, rest) = take_sign(rest, "]")?;
        return Ok((
            node::leaf(alloc, place, ExprKind::List(Vec::new(alloc)))?,
            rest,
        ));
    }
    let (first, rest) = read_inner(alloc, rest, Kind::Expr, room)?;
    let (others, rest) = read_other_exprs(alloc, rest, room)?;
    match take_sign(rest, "]") {
        Ok((_, rest)) => Ok((node::display(alloc, place, first, others)?, rest)),
        Err(stop) => {
            drop(others);
            Err(stop)
        }
    }
}

#[cycle(read)]
#[tactic(auto, unfolding(py_grammar::specs::Reading::curly))]
fn read_curly(alloc: Global, words: &[Word], room: u32) -> Result<(Phrase, &[Word]), Stop>
    ensures reads { Reads (λ x. (seen_of x.0, x.1.now)) result (curly (inner room) words.now) }
    ensures shorter { IfOk result (λ x. length x.1.now < length words.now) }
    ensures shallow { IfOk result (λ x. x.0.depth ≤ room) }
{
    let (place, rest) = take_sign(words, "{")?;
    if sign_next(rest, "}") {
        let (_, rest) = take_sign(rest, "}")?;
        return Ok((
            node::leaf(alloc, place, ExprKind::Dict(Vec::new(alloc)))?,
            rest,
        ));
    }
    let (first, rest) = read_pair(alloc, rest, room)?;
    let (others, rest) = read_other_pairs(alloc, rest, room)?;
    match take_sign(rest, "}") {
        Ok((_, rest)) => Ok((node::dict(alloc, place, first, others)?, rest)),
        Err(stop) => {
            drop(others);
            Err(stop)
        }
    }
}

#[tactic(auto, unfolding(py_grammar::specs::Reading::number))]
fn read_number(alloc: Global, words: &[Word]) -> Result<(Phrase, &[Word]), Stop>
    ensures reads { Reads (λ x. (seen_of x.0, x.1.now)) result (number words.now) }
    ensures shorter { IfOk result (λ x. length x.1.now < length words.now) }
    ensures flat { IfOk result (λ x. x.0.depth ≡ 0) }
{
    let ((place, n), rest) = take_number(words)?;
    if !sign_next(rest, "/") {
        return Ok((node::leaf(alloc, place, ExprKind::Number(n))?, rest));
    }
    let (_, rest) = take_sign(rest, "/")?;
    let (divisor, rest) = take_amount(rest)?;
    Ok((
        node::leaf(alloc, place, ExprKind::Quotient(n, divisor))?,
        rest,
    ))
}
