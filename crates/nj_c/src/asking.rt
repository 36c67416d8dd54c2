//! How calls use a session: its contents are taken out, read or changed, and put back.
//!
//! The macros are bodies of exports, and return the number of a status. **An answer has no `return`
//! and no `?`**, which would leave the session without its contents.

/// Reads the contents of an open session.
macro_rules! ask {
    ($session:expr, $alloc:expr, $kept:ident => $answer:expr) => {
        match $session.take($alloc) {
            Some(seal) => {
                let $kept = seal.get();
                let status = $answer;
                $session.put(seal);
                status.code()
            }
            None => $crate::status::Status::NotOpen.code(),
        }
    };
}

/// Reads the graph that is loaded.
macro_rules! ask_graph {
    ($session:expr, $alloc:expr, $graph:ident => $answer:expr) => {
        $crate::asking::ask!($session, $alloc, kept => match &kept.graph {
            Some($graph) => $answer,
            None => $crate::status::Status::NotLoaded,
        })
    };
}

/// Reads the graph about an edge with the given number, which is an `EdgeNo` in the answer.
macro_rules! ask_edge {
    ($session:expr, $alloc:expr, $edge:ident, $graph:ident => $answer:expr) => {
        $crate::asking::ask_graph!($session, $alloc, $graph => if $edge < $graph.edge_count() {
            let $edge = nj_graph::EdgeNo($edge);
            $answer
        } else {
            $crate::status::Status::BadNumber
        })
    };
}

/// Reads the graph about a file with the given number, which is a `FileNo` in the answer.
macro_rules! ask_file {
    ($session:expr, $alloc:expr, $file:ident, $graph:ident => $answer:expr) => {
        $crate::asking::ask_graph!($session, $alloc, $graph => if $file < $graph.file_count() {
            let $file = nj_graph::FileNo($file);
            $answer
        } else {
            $crate::status::Status::BadNumber
        })
    };
}

/// Changes the contents of an open session: the answer is the changed contents and a status.
macro_rules! change {
    ($session:expr, $alloc:expr, $seal:ident => $answer:expr) => {
        match $session.take($alloc) {
            Some($seal) => {
                let (changed, status) = $answer;
                $session.put(changed);
                status.code()
            }
            None => $crate::status::Status::NotOpen.code(),
        }
    };
}

/// Changes the contents of an open session where they stand: the answer borrows them, and is a status.
macro_rules! alter {
    ($session:expr, $alloc:expr, $kept:ident => $answer:expr) => {
        $crate::asking::change!($session, $alloc, seal => {
            let mut $kept = seal.into_box();
            let status = $answer;
            ($crate::sealed_box::Seal::new($kept), status)
        })
    };
}

/// Lists edges in an open session: the answer is the list, or the status that says why not.
macro_rules! list {
    ($session:expr, $alloc:expr, $kept:ident => $answer:expr) => {
        $crate::asking::change!($session, $alloc, seal => {
            let $kept = seal.get();
            let found = $answer;
            $crate::pages::keep_page(seal, found)
        })
    };
}

pub(crate) use alter;
pub(crate) use ask;
pub(crate) use ask_edge;
pub(crate) use ask_file;
pub(crate) use ask_graph;
pub(crate) use change;
pub(crate) use list;
