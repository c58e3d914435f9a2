// A route with a table of its places, one for each kind of node, which says from where on a node can stand there: most nodes need no search,
// and the others a short one.
ghost use Rattle.std.specs.Prelude.{◌≡◌, [], ◌+◌, ◌<◌, ◌≤◌, get_or, length, take};
ghost use Rattle.delay.specs.RoutePlaces.{Places, end_on, ends_on, kind_of};
ghost use Rattle.model.specs.Limits.{most_links, most_nodes};
ghost use Rattle.model.specs.Sets.{links, memb};
ghost use Rattle.model.specs.Sums.{bit};

use model::Flow;

// How many kinds of nodes the table of a route's places tells apart.
const KINDS: usize = 512;

// A node's kind. The quotient is added so that nodes which are alike modulo 256 are not all of one kind.
fn kind(node: u16) -> usize
    ensures { (result ≡ kind_of node) × (result < 512) }
{
    let x = node as usize;
    (x + x / KINDS) % KINDS
}

// The first so many nodes are a route, with the first place at which a node of each kind stands, beyond the route where none does.
// Kept: a count beside an array; with a slice of the flow's nodes in their place the verdict of 64 flows took a quarter longer.
#[derive(Drop)]
pub struct PlacedRoute {
    pub count: usize,
    pub nodes: [u16; Flow::MOST_NODES],
    places: [u16; KINDS],
    ghost few: { count ≤ most_nodes },
    ghost long: { length nodes ≡ most_nodes },
    ghost placed: { Places places nodes 0 count },
}

// The table of the places of a route's first n nodes.
fn first_places(n: usize, route: &[u16; Flow::MOST_NODES]) -> [u16; KINDS]
    requires { n ≤ most_nodes }
    ensures { Places result route.now 0 n }
{
    let mut places = [Flow::MOST_NODES as u16; KINDS];
    for j in (0..n).rev() {
        places[kind(route[j])] = j as u16;
    }
    places
}

impl PlacedRoute {
    // The route of a flow.
    pub fn of(f: &Flow) -> PlacedRoute
        requires { f.now.nodes ≤ most_nodes }
        ensures { (result.count ≡ f.now.nodes) × (result.nodes ≡ f.now.route) }
    {
        let count = f.nodes as usize;
        PlacedRoute {
            count,
            nodes: f.route,
            places: first_places(count, &f.route),
        }
    }

    // From which place on the route is to be searched for a node: beyond its end where no node of this kind is on it.
    fn search_from(&self, node: u16) -> usize
        ensures { result ≡ get_or self.now.places (kind_of node) 0 }
    {
        self.places[kind(node)] as usize
    }

    // Whether link i of another flow has an end on the route. One common node is enough, and the search of the two routes ends there: the loops and
    // their label are the form that document 01 names for this place.
    fn link_touches(&self, other: &Flow, i: usize) -> bool
        requires { i < most_links }
        ensures { result ≡ end_on other.now.route (take self.now.count self.now.nodes) i }
    {
        let mut found = false;
        'ends: for e in 0..2 {
            let node = other.route[i + e];
            for j in self.search_from(node)..self.count {
                if node == self.nodes[j] {
                    found = true;
                    break 'ends;
                }
            }
        }
        found
    }

    // 1 where link i of another flow has an end on the route, else 0: they are added. Its ends can stand there from the places a and b on; where both are beyond
    // the route nothing is searched.
    fn link_counts(&self, other: &Flow, i: usize, a: usize, b: usize) -> u16
        requires i_lt_most_links { i < most_links }
        requires a_value { a ≡ get_or self.now.places (kind_of (get_or other.now.route i 0)) 0 }
        requires b_value { b ≡ get_or self.now.places (kind_of (get_or other.now.route (i + 1) 0)) 0 }
        ensures { (result ≡ bit (end_on other.now.route (take self.now.count self.now.nodes) i)) × (result ≤ 1) }
    {
        if self.count <= a && self.count <= b {
            return 0;
        }
        u16::from(self.link_touches(other, i))
    }

    // How many links of another flow have an end on the route. Each of its nodes is looked up once, though it is an end of two links.
    pub fn links_touched(&self, other: &Flow) -> u16
        requires { other.now.nodes ≤ most_nodes }
        ensures touched { result ≡ ends_on other.now.route (take self.now.count self.now.nodes) (links other.now) }
        ensures small { (result ≤ most_links) × (length other.now.route ≡ most_nodes) }
    {
        let mut touched: u16 = 0;
        let mut a = self.search_from(other.route[0]);
        for i in 0..other.links() as usize {
            let b = self.search_from(other.route[i + 1]);
            touched += self.link_counts(other, i, a, b);
            a = b;
        }
        touched
    }
}
