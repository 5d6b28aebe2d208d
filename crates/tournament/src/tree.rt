// A tournament of keys, by which the nearest junction is known. Each junction has a leaf with its key, and each node above
// plays a match that the lesser of the two keys below it wins: the root holds the least key of all.
ghost use Rattle.std.specs.Prelude.{◌≡◌, ◌+◌, ◌-◌, ◌*◌, ◌/◌, ◌<◌, min, get_or, set};
ghost use Rattle.tournament.specs.Tournament.{leaves, Tournament, Entered, Least, key_of, junction_of_lem};

// The least power of two that is no less than the number of junctions, so that all leaves lie equally deep.
pub const LEAVES: usize = 256;

// The nodes 2 k and 2 k + 1 stand below node k. The leaves are the nodes from LEAVES on, and there is no node 0.
pub const NODES: usize = 2 * LEAVES;

const ROOT: usize = 1;

// Labels below this have keys of their own. Every tick lies below it.
const LABELS: u32 = 16_777_216;

// The key of a junction that is reached: that of an earlier label is less, and the junction can be read off it.
pub fn key_of(label: u32, junction: usize) -> u32
    ensures { result ≡ key_of label junction }
{
    label % LABELS * (LEAVES as u32) + ((junction % LEAVES) as u32)
}

// The junction that a key is of.
pub fn junction_of(key: u32) -> usize
    ensures { result ≡ junction_of_lem key }
{
    (key as usize) % LEAVES
}

// The least key of all.
pub fn least_key(tree: &[u32; NODES]) -> u32
    ensures { Tournament tree.now → Least tree.now result }
{
    tree[ROOT]
}

// The node that a node meets. The numbers of the two differ in their lowest bit, and add up to 4 k + 1 where k is that of the node above.
fn opponent(i: usize) -> usize
    ensures { result ≡ 4 * (i / 2) + 1 - i }
{
    i ^ 1
}

// Plays the winner so far, which stands at the node, against its opponent, and answers who wins.
fn play(tree: &mut [u32; NODES], node: usize, winner: u32) -> u32
    requires { (1 < node) × (node < 2 * leaves) }
    ensures won { result ≡ min (get_or tree.old (4 * (node / 2) + 1 - node) 0) winner }
    ensures tree { tree.new ≡ set tree.old (node / 2) result }
{
    let won = tree[opponent(node)].min(winner);
    tree[node / 2] = won;
    won
}

// Sets a junction's key, and plays the eight matches between its leaf and the root again, each by the winner of the one before. They are
// written out: a loop's counter and its test would be a third of each match.
pub fn enter(tree: &mut [u32; NODES], junction: usize, key: u32)
    ensures { Tournament tree.old → junction < leaves → Entered tree.old junction key tree.new }
{
    let leaf = LEAVES + junction % LEAVES;
    tree[leaf] = key;
    let first = play(tree, leaf, key);
    let second = play(tree, leaf / 2, first);
    let third = play(tree, leaf / 4, second);
    let fourth = play(tree, leaf / 8, third);
    let fifth = play(tree, leaf / 16, fourth);
    let sixth = play(tree, leaf / 32, fifth);
    let seventh = play(tree, leaf / 64, sixth);
    play(tree, leaf / 128, seventh);
}
