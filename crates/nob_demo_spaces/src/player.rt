//! What an application of the scene does.

ghost use Rattle.std.specs.Prelude.{◌≡◌, length, IfSome};

use crate::scene::Scene;
use crate::{Counter, Score, Stop, calls_of};
use nob_ids::SpaceId;
use nob_nodes::{Company, Hold, KeeperError, Node, NodeError, Player, Returned};
use nob_pickle::Value;
use std::alloc::Global;
use std::sync::Wait;

/// The name of the counter.
const NAME: &[u8] = b"counter";

/// An application of the scene: the one that has the counter, or one that calls it.
#[derive(Drop)]
pub(crate) struct ScenePlayer {
    // The counter, at the space that has it.
    counter: Option<Counter>,
    // The space that has the counter.
    owner: SpaceId,
    // How many calls it makes.
    calls: u64,
    // What its calls came to.
    score: Score,
    // Why it went no further.
    stop: Option<Stop>,
}

// The applications of all spaces, the first of which has the counter. Only memory fails it.
pub(crate) fn players_of(alloc: Global, scene: Scene) -> Option<Vec<ScenePlayer>>
    ensures { IfSome result (λ players. length players.items ≡ scene.spaces) }
{
    let owner = SpaceId::new(1)?;
    let mut players = Vec::new(alloc);
    while players.len() < usize::from(scene.spaces()) {
        let number = u16::try_from(players.len() + 1).ok()?;
        players.push(ScenePlayer::new(scene, number, owner)).ok()?;
    }
    Some(players)
}

impl ScenePlayer {
    // The application of a space: it has the counter, or else makes its calls to it.
    fn new(scene: Scene, space: u16, owner: SpaceId) -> ScenePlayer {
        let counter = if space == owner.get() {
            Some(Counter::new())
        } else {
            None
        };
        ScenePlayer {
            counter,
            owner,
            calls: calls_of(scene, space),
            score: Score::new(),
            stop: None,
        }
    }

    // What its calls came to, or why it went no further.
    pub(crate) fn into_score(self) -> Result<Score, Stop> {
        match self.stop {
            Some(stop) => Err(stop),
            None => Ok(self.score),
        }
    }

    // Why it goes no further.
    fn fail(&mut self, error: NodeError) {
        if let NodeError::Keeper(error) = error {
            self.stop = Some(stop_of(error));
        }
    }

    // Exports the counter, has its name stand for it, and gives it back once all have called it.
    fn own<R: Wait>(
        &mut self,
        rt: &R,
        node: &mut Node<Counter>,
        company: &Company,
        counter: Counter,
    ) {
        let hold = match node.export(rt, counter) {
            Ok(hold) => hold,
            Err((error, _counter)) => return self.fail(error),
        };
        match node.bind(rt, NAME, &hold) {
            Ok(()) => {
                let _ = company.meet(rt);
                let _ = company.meet(rt);
            }
            Err(error) => self.fail(error),
        }
        self.give_back(rt, node, hold);
    }

    // Looks the counter up, calls it so often, and gives it back: where all have come, else the
    // counter may not be there. Then it waits for the others to have done so too.
    fn call_all<R: Wait>(&mut self, rt: &R, node: &mut Node<Counter>, company: &Company) {
        if company.meet(rt) {
            self.call_named(rt, node);
        }
        let _ = company.meet(rt);
    }

    // Looks the counter up, calls it so often, and gives it back.
    fn call_named<R: Wait>(&mut self, rt: &R, node: &mut Node<Counter>) {
        match node.lookup(rt, self.owner, NAME) {
            Ok(returned) => match returned.into_hold() {
                Ok(hold) => {
                    self.call_each(rt, node, &hold);
                    self.give_back(rt, node, hold);
                }
                Err(returned) => returned.forget(),
            },
            Err(error) => self.fail(error),
        }
    }

    // Makes its calls.
    fn call_each<R: Wait>(&mut self, rt: &R, node: &mut Node<Counter>, hold: &Hold) {
        for _ in 0..self.calls {
            match node.call(rt, hold, 0, Value::Int(1)) {
                Ok(returned) => self.count(returned),
                Err((error, _value)) => return self.fail(error),
            }
        }
    }

    // Counts what a call returned.
    fn count(&mut self, returned: Returned) {
        if let Returned::Replied { status, value, .. } = &returned {
            self.score = self.score.with_reply(*status, value);
        }
        returned.forget();
    }

    // Gives a hold back.
    fn give_back<R: Wait>(&mut self, rt: &R, node: &mut Node<Counter>, hold: Hold) {
        if let Err((error, hold)) = node.release(rt, hold) {
            hold.forget();
            self.fail(error);
        }
    }
}

impl Player<Counter> for ScenePlayer {
    fn run<R: Wait>(&mut self, rt: &R, node: &mut Node<Counter>, company: &Company) {
        match self.counter.take() {
            Some(counter) => self.own(rt, node, company, counter),
            None => self.call_all(rt, node, company),
        }
    }
}

// Why a scene stops whose node can't go on.
pub(crate) fn stop_by(error: NodeError) -> Stop {
    match error {
        NodeError::Keeper(error) => stop_of(error),
        NodeError::Refused(_) => Stop::OutOfMemory,
    }
}

// Why a scene stops whose keeper makes no entry: its trace is full, or else there is no memory, as no
// other error comes.
fn stop_of(error: KeeperError) -> Stop {
    match error {
        KeeperError::Stamp => Stop::Full,
        _ => Stop::OutOfMemory,
    }
}
