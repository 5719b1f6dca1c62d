//! Matches in which rows walk, fight, build, train, resign and are deleted.

/// Two posts, of which the first is deleted in turn 1.
pub const POSTS: &str =
    r#"{"size":[4,4],"closed":[],"players":[[],[]],"cap":0,"delay":1,"turns":2,"seed":0,"templates":[{"@name":"post","Health":{"Max":50}}],"entities":[["post",1,1,1],["post",2,2,2]],"commands":[[1,1,"delete",[2,3,2]]]}"#;

/// A walker that goes four cells along x.
pub const STEP: &str =
    r#"{"size":[8,8],"closed":[],"players":[[]],"cap":0,"delay":1,"turns":2,"seed":0,"templates":[{"@name":"walker","Motion":{"Speed":10}}],"entities":[["walker",1,"2.5","2.5"]],"commands":[[1,1,"walk",[2],"6.5","2.5"]]}"#;

/// A walker whose goal is farther than a way is kept.
pub const FAR: &str =
    r#"{"size":[128,1],"closed":[],"players":[[]],"cap":0,"delay":1,"turns":60,"seed":0,"templates":[{"@name":"walker","Motion":{"Speed":10}}],"entities":[["walker",1,"0.5","0.5"]],"commands":[[1,1,"walk",[2],"100.5","0.5"]]}"#;

/// A walker whose goal lies behind a wall, in a closed cell. Two cells are equally near to it, and the one of the lesser z
/// is the end of the way.
pub const WALL: &str =
    r#"{"size":[8,5],"closed":[[4,1,6,3],[3,2,3,2]],"players":[[]],"cap":0,"delay":1,"turns":5,"seed":0,"templates":[{"@name":"walker","Motion":{"Speed":10}}],"entities":[["walker",1,"0.5","2.5"]],"commands":[[1,1,"walk",[2],"5.5","2.5"]]}"#;

/// A hut of two by two cells is placed over a walker, who then leaves it.
pub const HUT_OVER: &str =
    r#"{"size":[16,16],"closed":[],"players":[[]],"cap":4,"delay":1,"turns":2,"seed":0,"templates":[{"@name":"walker","Motion":{"Speed":10}},{"@name":"hut","Obstruct":{"Width":2,"Depth":2}}],"entities":[["walker",1,"5.5","5.5"]],"commands":[[1,1,"place",1,"5.5","5.5"],[1,1,"walk",[2],"9.5","5.5"]]}"#;

/// The same with a hut of three by three cells, out of which no step leads.
pub const WIDE_HUT_OVER: &str =
    r#"{"size":[16,16],"closed":[],"players":[[]],"cap":4,"delay":1,"turns":2,"seed":0,"templates":[{"@name":"walker","Motion":{"Speed":10}},{"@name":"hut","Obstruct":{"Width":3,"Depth":3}}],"entities":[["walker",1,"5.5","5.5"]],"commands":[[1,1,"place",1,"5.5","5.5"],[1,1,"walk",[2],"9.5","5.5"]]}"#;

/// Three guards of two enemies, close to each other.
pub const GUARDS: &str =
    r#"{"size":[16,16],"closed":[],"players":[[2],[1]],"cap":0,"delay":1,"turns":2,"seed":0,"templates":[{"@name":"guard","Health":{"Max":15},"Resist":{"Hack":1},"Attack":{"Hack":20,"Range":2,"Vision":10,"Repeat":0}}],"entities":[["guard",1,"5.5","5.5"],["guard",2,"6.5","5.5"],["guard",2,"7.5","5.5"]],"commands":[]}"#;

/// Bows that are ordered onto a friend, onto nobody, and onto an enemy.
pub const BOWS: &str =
    r#"{"size":[16,16],"closed":[],"players":[[2],[1]],"cap":0,"delay":1,"turns":2,"seed":0,"templates":[{"@name":"bow","Health":{"Max":10},"Attack":{"Pierce":1,"Range":0,"Vision":0,"Repeat":0}}],"entities":[["bow",1,"1.5","1.5"],["bow",1,"2.5","1.5"],["bow",2,"3.5","1.5"]],"commands":[[1,1,"attack",[2],3],[1,1,"attack",[2],99],[1,1,"attack",[2,2,4],4]]}"#;

/// A barracks that trains a walker.
pub const TRAINING: &str =
    r#"{"size":[16,16],"closed":[],"players":[[]],"cap":2,"delay":1,"turns":2,"seed":0,"templates":[{"@name":"walker","Motion":{"Speed":10}},{"@name":"barracks","Obstruct":{"Width":2,"Depth":2},"Train":{"Units":"walker"}}],"entities":[["barracks",1,"5.5","5.5"]],"commands":[[1,1,"train",2,0]]}"#;

/// The same where the player may have no more.
pub const NO_ROOM: &str =
    r#"{"size":[16,16],"closed":[],"players":[[]],"cap":1,"delay":1,"turns":2,"seed":0,"templates":[{"@name":"walker","Motion":{"Speed":10}},{"@name":"barracks","Obstruct":{"Width":2,"Depth":2},"Train":{"Units":"walker"}}],"entities":[["barracks",1,"5.5","5.5"]],"commands":[[1,1,"train",2,0]]}"#;

/// The same with posts.
pub const TRAINED_POSTS: &str =
    r#"{"size":[16,16],"closed":[],"players":[[]],"cap":2,"delay":1,"turns":2,"seed":0,"templates":[{"@name":"post","Health":{"Max":50}},{"@name":"barracks","Obstruct":{"Width":2,"Depth":2},"Train":{"Units":"post"}}],"entities":[["barracks",1,"5.5","5.5"]],"commands":[[1,1,"train",2,0]]}"#;

/// Four huts are placed, of which one stands in another and one reaches past the ground, and then left.
pub const HUTS_LEFT: &str =
    r#"{"size":[16,16],"closed":[],"players":[[]],"cap":4,"delay":1,"turns":1,"seed":0,"templates":[{"@name":"hut","Obstruct":{"Width":2,"Depth":2}}],"entities":[],"commands":[[1,1,"place",0,"5.5","5.5"],[1,1,"place",0,"6.5","5.5"],[1,1,"place",0,"7.5","5.5"],[1,1,"place",0,"0.5","0.5"],[1,1,"resign"]]}"#;
