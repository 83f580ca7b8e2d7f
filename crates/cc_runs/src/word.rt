//! The words of a topic's table, and the address of each.
ghost use Rattle.std.specs.Prelude.{◌+◌, ◌%◌, ◌^◌, ◌≡◌, ◌<◌, IsTrue};
ghost use Rattle.cc_runs.specs.Words as laid;
ghost use Rattle.cc_runs.specs.Words.{IsSmall, layout_of, exists, size, node_field, item_field, is_node_field, is_item_field};

use cc_model::Config;

/// A chain of waiting calls: the senders', or that of one group of receivers.
#[derive(Clone, Copy)]
pub enum Chain {
    Send,
    Take(u32),
}

/// A word of a chain's node.
#[derive(Clone, Copy)]
pub enum NodeField {
    Next,
    State,
    Tag,
    /// A word of the body, from 0 to 3.
    Body(u32),
    Ret,
}

/// A word of a list node.
#[derive(Clone, Copy)]
pub enum ItemField {
    Tag,
    /// A word of the body, from 0 to 3.
    Body(u32),
    Next,
    Passed,
}

/// A word of the list as a whole, or of one group's end of it.
#[derive(Clone, Copy)]
pub enum Object {
    Last,
    Shut,
    Count,
    Cursor,
    Head(u32),
    Taken(u32),
}

/// A word of a topic's table.
#[derive(Clone, Copy)]
pub enum Word {
    Tail(Chain),
    Object(Object),
    Node(Chain, u64, NodeField),
    Item(u64, ItemField),
}

impl NodeField {
    /// The place of this word among the eight of a node of this chain, from 0 on.
    #[inline(always)]
    pub fn offset(self, chain: Chain) -> usize
        requires field { IsTrue (is_node_field self) }
        ensures place { result ≡ node_field chain self }
        ensures few { result < 8 }
    {
        match (chain, self) {
            (_, NodeField::Next) => 0,
            (_, NodeField::State) => 1,
            (Chain::Send, NodeField::Tag) => 2,
            (Chain::Send, NodeField::Body(index)) => 3 + index as usize,
            (Chain::Send, NodeField::Ret) => 7,
            (Chain::Take(_), NodeField::Ret) => 2,
            (Chain::Take(_), NodeField::Tag) => 3,
            (Chain::Take(_), NodeField::Body(index)) => 4 + index as usize,
        }
    }
}

impl ItemField {
    /// The place of this word among the seven of a list node, from 0 on.
    #[inline(always)]
    pub fn offset(self) -> usize
        requires field { IsTrue (is_item_field self) }
        ensures place { result ≡ item_field self }
        ensures few { result < 7 }
    {
        match self {
            ItemField::Tag => 0,
            ItemField::Body(index) => 1 + index as usize,
            ItemField::Next => 5,
            ItemField::Passed => 6,
        }
    }
}

/// The list node after this one in a row of this length: after the last comes the first. It divides only there, since a
/// scan of the whole row asks it for each node.
#[inline(always)]
pub fn node_after(node: u64, nodes: u64) -> u64
    requires some { 0 < nodes }
    requires fits { node + 1 < 2 ^ 64 }
    ensures { result ≡ (node + 1) % nodes }
{
    let next = node + 1;
    if next < nodes { next } else { next % nodes }
}

/// The number of a word among all words of a topic, from 0 on: words 0 to 7 are kept for the configuration; then come the
/// senders' tail, `last`, `shut`, `count`, `cursor`, then tail, `head` and `taken` of each group, the senders' nodes, the
/// nodes of each group, and the list nodes.
#[inline(always)]
pub fn address(config: &Config, word: Word) -> usize
    requires small { IsSmall (layout_of config.now) }
    requires word { IsTrue (exists (layout_of config.now) word) }
    ensures place { result ≡ laid.address (layout_of config.now) word }
    ensures below { result < size (layout_of config.now) }
{
    let groups = config.groups as usize;
    let send_nodes = 13 + 3 * groups;
    let take_nodes = send_nodes + 8 * (config.senders as usize + 1);
    let items = take_nodes + 8 * (groups * (config.receivers as usize + 1));
    match word {
        Word::Tail(Chain::Send) => 8,
        Word::Object(Object::Last) => 9,
        Word::Object(Object::Shut) => 10,
        Word::Object(Object::Count) => 11,
        Word::Object(Object::Cursor) => 12,
        Word::Tail(Chain::Take(group)) => 13 + 3 * group as usize,
        Word::Object(Object::Head(group)) => 14 + 3 * group as usize,
        Word::Object(Object::Taken(group)) => 15 + 3 * group as usize,
        Word::Node(Chain::Send, index, field) => {
            send_nodes + 8 * index as usize + field.offset(Chain::Send)
        }
        Word::Node(Chain::Take(group), index, field) => {
            take_nodes
                + 8 * (group as usize * (config.receivers as usize + 1))
                + 8 * index as usize
                + field.offset(Chain::Take(group))
        }
        Word::Item(index, field) => items + 7 * index as usize + field.offset(),
    }
}
