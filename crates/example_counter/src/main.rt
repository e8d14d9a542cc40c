//! The program `example_counter`: two nodes in two threads. One makes a counter known by a name;
//! the other looks it up, calls it and gives it back; then nobody refers to it any more, and it is
//! withdrawn.
#![tactic(auto)]

mod counter;

use crate::counter::Counter;
use nob_nodes::{
    Company, Node, Player, answer_to, give_back, look_up, offer, partner_of, retire, run_two,
};
use nob_pickle::Value;
use std::io;
use std::sync::Wait;

/// The player that has the counter.
#[derive(Drop)]
struct Owner;

impl Player<Counter> for Owner {
    fn run<R: Wait>(&mut self, rt: &R, node: &mut Node<Counter>, company: &Company) {
        if let Some(hold) = offer(rt, node, b"counter", Counter { total: 0 }) {
            company.meet(rt);
            // The other looks the counter up and calls it.
            company.meet(rt);
            retire(rt, node, b"counter", hold);
        }
    }
}

/// The player that calls it.
#[derive(Drop)]
struct Caller {
    // What the counter said last.
    said: Option<Value>,
}

impl Player<Counter> for Caller {
    fn run<R: Wait>(&mut self, rt: &R, node: &mut Node<Counter>, company: &Company) {
        company.meet(rt);
        if let Some(hold) = look_up(rt, node, partner_of(company), b"counter") {
            for _ in 0..3 {
                self.said = answer_to(rt, node, &hold, 0, Value::Int(14));
            }
            let _ = give_back(rt, node, hold);
        }
        company.meet(rt);
    }
}

fn main(rt: HostRuntime) -> io::Result<()> {
    let Some((owner, caller)) = run_two(&rt, rt.alloc(), Owner, Caller { said: None }) else {
        return println!(&rt; "it failed");
    };
    if let Some(Value::Int(total)) = caller.player.said {
        println!(&rt; "the counter says {total}")?;
    }
    let is_withdrawn = match &owner.left {
        Ok(report) => report.objects.is_empty(),
        Err(_) => false,
    };
    println!(&rt; "it is withdrawn: {is_withdrawn}")
}
