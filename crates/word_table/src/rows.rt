// The table's bytes, and where its sections begin. Written by tools/words.py from the word list in crates/words/specs.
pub type Words = [u8; 5520];

// The row at which each section begins, by variant from there on, and the number of rows. (The lone words between them are looked for, and written as they are.)
pub const TYPES: usize = 0;

pub const QUALIFIERS: usize = 119;

pub const JUMPS: usize = 146;

pub const BOOLS: usize = 150;

pub const UNARY: usize = 162;

pub const BINARY: usize = 168;

pub const ASSIGNMENT: usize = 187;

pub const ROWS: usize = 198;

// Where the rows of the slots stand, and the flaws of the bytes.
pub const SLOTS: usize = 4752;

pub const FLAWS: usize = 5264;

// A row a line: the text, blanks, and the text's length. Then the row for each slot, and the flaws of each byte.
pub static TABLE: Words = *b"\
    void                   \x04\
    bool                   \x04\
    int                    \x03\
    uint                   \x04\
    float                  \x05\
    double                 \x06\
    vec2                   \x04\
    vec3                   \x04\
    vec4                   \x04\
    dvec2                  \x05\
    dvec3                  \x05\
    dvec4                  \x05\
    bvec2                  \x05\
    bvec3                  \x05\
    bvec4                  \x05\
    ivec2                  \x05\
    ivec3                  \x05\
    ivec4                  \x05\
    uvec2                  \x05\
    uvec3                  \x05\
    uvec4                  \x05\
    mat2                   \x04\
    mat3                   \x04\
    mat4                   \x04\
    mat2x2                 \x06\
    mat2x3                 \x06\
    mat2x4                 \x06\
    mat3x2                 \x06\
    mat3x3                 \x06\
    mat3x4                 \x06\
    mat4x2                 \x06\
    mat4x3                 \x06\
    mat4x4                 \x06\
    dmat2                  \x05\
    dmat3                  \x05\
    dmat4                  \x05\
    dmat2x2                \x07\
    dmat2x3                \x07\
    dmat2x4                \x07\
    dmat3x2                \x07\
    dmat3x3                \x07\
    dmat3x4                \x07\
    dmat4x2                \x07\
    dmat4x3                \x07\
    dmat4x4                \x07\
    sampler2D              \x09\
    sampler3D              \x09\
    samplerCube            \x0b\
    sampler2DShadow        \x0f\
    sampler2DArray         \x0e\
    atomic_uint            \x0b\
    sampler1D              \x09\
    sampler1DShadow        \x0f\
    sampler1DArray         \x0e\
    sampler1DArrayShadow   \x14\
    isampler1D             \x0a\
    isampler1DArray        \x0f\
    usampler1D             \x0a\
    usampler1DArray        \x0f\
    sampler2DArrayShadow   \x14\
    isampler2D             \x0a\
    isampler2DArray        \x0f\
    usampler2D             \x0a\
    usampler2DArray        \x0f\
    sampler2DRect          \x0d\
    sampler2DRectShadow    \x13\
    isampler2DRect         \x0e\
    usampler2DRect         \x0e\
    sampler2DMS            \x0b\
    isampler2DMS           \x0c\
    usampler2DMS           \x0c\
    sampler2DMSArray       \x10\
    isampler2DMSArray      \x11\
    usampler2DMSArray      \x11\
    isampler3D             \x0a\
    usampler3D             \x0a\
    samplerCubeShadow      \x11\
    isamplerCube           \x0c\
    usamplerCube           \x0c\
    samplerCubeArray       \x10\
    samplerCubeArrayShadow \x16\
    isamplerCubeArray      \x11\
    usamplerCubeArray      \x11\
    samplerBuffer          \x0d\
    isamplerBuffer         \x0e\
    usamplerBuffer         \x0e\
    image1D                \x07\
    iimage1D               \x08\
    uimage1D               \x08\
    image1DArray           \x0c\
    iimage1DArray          \x0d\
    uimage1DArray          \x0d\
    image2D                \x07\
    iimage2D               \x08\
    uimage2D               \x08\
    image2DArray           \x0c\
    iimage2DArray          \x0d\
    uimage2DArray          \x0d\
    image2DRect            \x0b\
    iimage2DRect           \x0c\
    uimage2DRect           \x0c\
    image2DMS              \x09\
    iimage2DMS             \x0a\
    uimage2DMS             \x0a\
    image2DMSArray         \x0e\
    iimage2DMSArray        \x0f\
    uimage2DMSArray        \x0f\
    image3D                \x07\
    iimage3D               \x08\
    uimage3D               \x08\
    imageCube              \x09\
    iimageCube             \x0a\
    uimageCube             \x0a\
    imageCubeArray         \x0e\
    iimageCubeArray        \x0f\
    uimageCubeArray        \x0f\
    imageBuffer            \x0b\
    iimageBuffer           \x0c\
    uimageBuffer           \x0c\
    const                  \x05\
    inout                  \x05\
    in                     \x02\
    out                    \x03\
    centroid               \x08\
    patch                  \x05\
    sample                 \x06\
    uniform                \x07\
    buffer                 \x06\
    shared                 \x06\
    coherent               \x08\
    volatile               \x08\
    restrict               \x08\
    readonly               \x08\
    writeonly              \x09\
    attribute              \x09\
    varying                \x07\
    subroutine             \x0a\
    layout                 \x06\
    highp                  \x05\
    mediump                \x07\
    lowp                   \x04\
    smooth                 \x06\
    flat                   \x04\
    noperspective          \x0d\
    invariant              \x09\
    precise                \x07\
    continue               \x08\
    break                  \x05\
    discard                \x07\
    return                 \x06\
    false                  \x05\
    true                   \x04\
    precision              \x09\
    struct                 \x06\
    if                     \x02\
    else                   \x04\
    switch                 \x06\
    case                   \x04\
    default                \x07\
    while                  \x05\
    do                     \x02\
    for                    \x03\
    ++                     \x02\
    --                     \x02\
    +                      \x01\
    -                      \x01\
    !                      \x01\
    ~                      \x01\
    ||                     \x02\
    ^^                     \x02\
    &&                     \x02\
    |                      \x01\
    ^                      \x01\
    &                      \x01\
    ==                     \x02\
    !=                     \x02\
    <                      \x01\
    >                      \x01\
    <=                     \x02\
    >=                     \x02\
    <<                     \x02\
    >>                     \x02\
    +                      \x01\
    -                      \x01\
    *                      \x01\
    /                      \x01\
    %                      \x01\
    =                      \x01\
    *=                     \x02\
    /=                     \x02\
    %=                     \x02\
    +=                     \x02\
    -=                     \x02\
    <<=                    \x03\
    >>=                    \x03\
    &=                     \x02\
    ^=                     \x02\
    |=                     \x02\
    \x36\x3b\x9f\xa4\xa4\xa4\xa4\xa4\xa4\x89\x32\xa4\x23\xa4\xa4\x54\xa4\xa4\x50\x7c\xa4\xa4\xa4\x8f\xa4\xa4\xa4\x55\x83\x10\xa4\xa4\
    \x33\xa4\xa4\x98\xa4\xa4\xa4\xa4\xa4\xa4\xa4\xa4\xa4\x16\xa4\xa4\xa4\xa4\xa4\xa4\xa4\xa4\xa4\xa4\xa4\xa4\xa4\xa4\x7a\xa4\xa4\xa4\
    \x35\xa4\x72\x90\xa4\xa4\xa4\xa4\xa4\x31\x9c\x11\xa4\xa4\x73\x71\xa4\xa4\xa4\x58\xa4\xa4\xa4\xa4\x34\x30\xa4\x99\x17\xa4\xa4\xa4\
    \x88\x2d\xa4\xa4\xa4\xa4\xa4\x8d\xa4\xa4\x2f\xa4\xa4\x81\xa4\xa4\xa4\xa4\xa4\x5e\xa4\xa4\xa4\xa4\xa4\xa4\x6f\x87\xa4\xa4\xa4\xa4\
    \xa4\xa4\xa4\xa4\xa4\xa4\x70\x6e\xa4\x5a\x18\x1b\x1e\xa4\x06\x51\xa4\x60\xa4\x6d\xa4\x5b\xa4\xa4\xa4\xa4\xa4\x52\x03\x61\xa4\xa4\
    \xa4\xa0\x2e\xa4\xa4\xa4\x59\xa4\xa4\x63\xa4\xa4\xa4\xa4\x5f\x12\xa4\xa4\xa4\xa4\xa4\x64\x19\x1c\x1f\xa4\xa4\x9d\xa4\x07\xa4\xa4\
    \xa4\xa4\x79\xa4\xa4\xa4\xa4\xa4\x24\x40\x27\xa4\x2a\x94\xa4\xa4\xa4\xa4\xa4\xa4\xa4\xa4\x05\x62\xa4\xa4\xa4\x9b\xa4\x13\xa4\xa4\
    \xa4\xa4\x1a\x1d\x20\xa4\xa4\x37\x7f\xa4\xa4\xa4\x08\xa4\xa4\xa4\x25\xa4\x28\x39\x2b\x82\x92\xa4\xa4\x96\xa4\xa4\xa4\xa4\xa4\xa4\
    \xa4\xa4\xa4\xa4\xa4\xa4\xa4\x38\x8a\x66\xa4\x14\xa4\xa4\xa4\x3d\xa4\xa4\xa4\x3a\xa4\x67\xa4\xa4\x26\x44\x29\x3f\x2c\xa4\xa4\x4d\
    \xa4\x47\xa4\xa4\xa4\x56\xa4\x3c\xa4\x5c\xa4\x4e\xa4\x6b\xa4\xa4\xa4\xa4\x65\x3e\xa4\xa4\xa4\xa4\xa4\xa4\xa4\xa4\xa4\xa4\xa4\xa4\
    \xa4\xa4\xa4\xa4\xa4\xa4\xa4\xa4\xa4\xa4\x9a\xa4\xa4\xa4\xa1\xa4\x8c\xa4\xa4\xa4\xa4\xa4\xa4\x8b\xa4\x53\x75\x9e\xa4\xa4\xa4\xa4\
    \xa4\x95\x84\xa4\x7e\xa4\x76\x4a\xa4\x69\xa4\x74\xa4\xa4\xa4\xa4\xa4\xa4\x4c\x4b\xa4\x6a\xa4\xa4\xa4\xa4\xa4\x77\xa4\xa4\xa4\x0c\
    \xa4\xa4\xa4\xa4\x7b\xa4\xa4\x85\xa4\xa4\xa4\xa4\xa4\xa4\xa4\x42\xa4\xa4\x68\x57\xa4\xa4\xa4\xa4\xa4\x04\xa4\x43\x80\xa4\xa4\x09\
    \xa4\xa4\xa4\xa4\xa4\xa4\xa4\xa4\xa4\xa4\xa4\xa4\x8e\x0d\xa4\xa4\x21\xa4\xa4\x5d\xa4\xa4\xa4\xa4\xa4\xa4\xa4\x93\x00\xa4\xa4\xa4\
    \xa4\xa4\xa4\xa4\xa4\xa4\xa4\xa4\xa4\x91\xa4\x97\xa4\x0a\xa4\xa4\xa4\xa4\xa4\x6c\x7d\xa4\xa4\xa4\xa4\x41\x4f\x0e\x02\x78\x22\x45\
    \xa4\x86\xa4\xa4\xa4\xa4\xa4\x48\xa4\xa4\xa4\x46\xa4\xa4\xa4\x0f\xa4\xa4\xa4\x49\x01\xa4\xa4\xa4\xa4\xa4\xa4\x0b\xa4\xa4\x15\xa4\
    \x01\x01\x01\x01\x01\x01\x01\x01\x01\x01\x01\x01\x01\x01\x01\x01\x01\x01\x01\x01\x01\x01\x01\x01\x01\x01\x01\x01\x01\x01\x01\x01\
    \x01\x01\x01\x01\x01\x01\x01\x01\x01\x01\x01\x01\x01\x01\x01\x01\x00\x00\x00\x00\x00\x00\x00\x00\x00\x00\x01\x01\x01\x01\x01\x01\
    \x01\x00\x00\x00\x00\x00\x00\x00\x00\x00\x00\x00\x00\x00\x00\x00\x00\x00\x00\x00\x00\x00\x00\x00\x00\x00\x00\x01\x01\x01\x01\x00\
    \x01\x00\x00\x00\x00\x00\x00\x00\x00\x00\x00\x00\x00\x00\x00\x00\x00\x00\x00\x00\x00\x00\x00\x00\x00\x00\x00\x01\x01\x01\x01\x01\
    \x01\x01\x01\x01\x01\x01\x01\x01\x01\x01\x01\x01\x01\x01\x01\x01\x01\x01\x01\x01\x01\x01\x01\x01\x01\x01\x01\x01\x01\x01\x01\x01\
    \x01\x01\x01\x01\x01\x01\x01\x01\x01\x01\x01\x01\x01\x01\x01\x01\x01\x01\x01\x01\x01\x01\x01\x01\x01\x01\x01\x01\x01\x01\x01\x01\
    \x01\x01\x01\x01\x01\x01\x01\x01\x01\x01\x01\x01\x01\x01\x01\x01\x01\x01\x01\x01\x01\x01\x01\x01\x01\x01\x01\x01\x01\x01\x01\x01\
    \x01\x01\x01\x01\x01\x01\x01\x01\x01\x01\x01\x01\x01\x01\x01\x01\x01\x01\x01\x01\x01\x01\x01\x01\x01\x01\x01\x01\x01\x01\x01\x01";
