// The rule of the board's table, and the names of its steps.
ghost use Rattle.grant_board.specs.Rule.{Orderly, terms_of};
ghost use Rattle.grant_board.specs.Plays.{opened, blank, ruled, offers, sees, clears, limits, vouches, glances, takes, posts, meets, counts, beside, aside, cut_off, parent, child, views_joined};

use crate::view::{Plan, View};
use atomic_table::{Join, Play, Split, TableRule};

#[derive(Clone, Copy)]
pub struct Order;

impl TableRule<(), View, Plan> for Order {
    ghost holds = { λ plan. Orderly (terms_of plan) };

    ghost first = { λ plan. opened (terms_of plan) };
}

pub struct Offer;

impl Play<(), View> for Offer {
    ghost then = { ruled offers };
}

pub struct See;

impl Play<(), View> for See {
    ghost then = { ruled sees };
}

pub struct Clear;

impl Play<(), View> for Clear {
    ghost then = { ruled clears };
}

pub struct Limit;

impl Play<(), View> for Limit {
    ghost then = { ruled limits };
}

pub struct Vouch;

impl Play<(), View> for Vouch {
    ghost then = { ruled vouches };
}

pub struct Glance;

impl Play<(), View> for Glance {
    ghost then = { ruled glances };
}

pub struct Take;

impl Play<(), View> for Take {
    ghost then = { ruled takes };
}

pub struct Post;

impl Play<(), View> for Post {
    ghost then = { ruled posts };
}

pub struct Meet;

impl Play<(), View> for Meet {
    ghost then = { meets };
}

pub struct Count;

impl Play<(), View> for Count {
    ghost then = { ruled counts };
}

// Joins two seats' parts, and separates the last relay's part again.
pub struct Beside;

impl Join<View> for Beside {
    ghost both = { beside };

    ghost spent = { blank };
}

impl Split<View> for Beside {
    ghost left = { aside };

    ghost right = { cut_off };
}

// A seat that the first one splits off and joins again.
pub struct Branch;

impl Join<View> for Branch {
    ghost both = { views_joined };

    ghost spent = { blank };
}

impl Split<View> for Branch {
    ghost left = { parent };

    ghost right = { child };
}
